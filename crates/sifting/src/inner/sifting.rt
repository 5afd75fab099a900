// A contour of a row that is cleaned where it lies, and moved down over what is free.
ghost use mathlib.Core.Path.{◌≡◌};
ghost use mathlib.Core.Bool.{true, false};
ghost use Prim.Native.Nat.{◌+◌, ◌-◌, ◌*◌, ◌<◌, ◌≤◌};
ghost use lib.IntN.{pos};
ghost use lib.ListN.{length, get_or, set};
ghost use Rattle.std.specs.Prelude.{None};
ghost use Rattle.ring.specs.Rule.{goes};
ghost use Rattle.ring.specs.inside.Rows.{Ended, FirstStand};
ghost use Rattle.clean.specs.inside.Looking.{LookedOver};
ghost use Rattle.sifting.specs.inside.Sifting.{InPlace, lying, ScratchFor, Lowered, Failing, Siftable, Sifted};

use clean::inner::look;
use clean::inner::look::Look;
use pool::inner::moving;
use ring::{Ending, Rule};

// With how many points a contour stays, if it stays, and after how many decisions.
#[derive(Clone, Copy)]
pub struct Kept {
    pub points: Option<usize>,
    pub decisions: usize,
}

// Point i becomes point k.
fn put(row: &mut [i32], i: usize, k: usize)
    requires { (2 * i + 1 < length row.old) × (2 * k + 1 < length row.old) }
    ensures { row.new
        ≡ set (set row.old (2 * k) (get_or row.old (2 * i) (pos 0)))
        (2 * k + 1) (get_or row.old (2 * i + 1) (pos 0)) }
{
    let x = row[2 * i];
    let y = row[2 * i + 1];
    row[2 * k] = x;
    row[2 * k + 1] = y;
}

// Of as many points as there are marks, from point `start` on, those that survive move down to point `to`; says how many.
fn survivors(row: &mut [i32], start: usize, to: usize, mark: &[u8]) -> usize
    requires { (to ≤ start) × (2 * (start + length mark.now) ≤ length row.old) }
    ensures { Lowered row.old start to mark.now result row.new }
{
    let mut kept: usize = 0;
    for (i, m) in mark.iter().enumerate() {
        if *m < 2 {
            put(row, start + i, to + kept);
            kept += 1;
        }
    }
    kept
}

// A look over the contour from point `start` up to point `end`.
fn look_over(rule: Rule, row: &[i32], start: usize, end: usize) -> Look
    requires { InPlace row.now start end × (3 ≤ end - start) }
    ensures { LookedOver rule (lying row.now start end) (end - start) result }
{
    let from = 2 * start;
    let behind = 2 * end;
    look::look_over(rule, &row[from..behind], end - start)
}

// Its walk, with scratch of exactly its points' count, from a point on before which all stand.
fn walk(
    rule: Rule,
    row: &[i32],
    start: usize,
    end: usize,
    standing: usize,
    next: &mut [u32],
    prev: &mut [u32],
    mark: &mut [u8],
) -> Ending
    requires in_place { InPlace row.now start end × ScratchFor start end next.old prev.old mark.old }
    requires standing_in_bounds { (standing < length mark.old)
        × FirstStand (goes rule (lying row.now start end)) (length mark.old) standing }
    ensures { Ended (goes rule (lying row.now start end)) (length mark.old)
        mark.new prev.new result }
{
    let from = 2 * start;
    let behind = 2 * end;
    ring::inner::walk(rule, &row[from..behind], standing, next, prev, mark)
}

fn gone(decisions: usize) -> Kept
    ensures { result ≡ record { points = None; decisions = decisions } }
{
    Kept {
        points: None,
        decisions,
    }
}

// A contour that does not pass, walked and moved down to point `to`.
fn walk_down(
    rule: Rule,
    row: &mut [i32],
    start: usize,
    end: usize,
    to: usize,
    standing: usize,
    next: &mut [u32],
    prev: &mut [u32],
    mark: &mut [u8],
) -> Kept
    requires in_place { InPlace row.old start end × ScratchFor start end next.old prev.old mark.old }
    requires standing_in_bounds { (standing < length mark.old)
        × FirstStand (goes rule (lying row.old start end)) (length mark.old) standing }
    requires to_le_start { (to ≤ start) × Failing rule (lying row.old start end) }
    ensures { Sifted rule row.old start end to result row.new }
{
    let walked = walk(rule, row, start, end, standing, next, prev, mark);
    let decisions = walked.decisions;
    if !walked.kept {
        return gone(decisions);
    }
    let points = survivors(row, start, to, mark);
    Kept {
        points: Some(points),
        decisions,
    }
}

// A contour, left as it is where it passes its verdict, and walked otherwise, and moved down to point `to`.
pub fn sift(
    rule: Rule,
    row: &mut [i32],
    start: usize,
    end: usize,
    to: usize,
    next: &mut [u32],
    prev: &mut [u32],
    mark: &mut [u8],
) -> Kept
    requires { Siftable row.old start end to next.old prev.old mark.old }
    ensures { Sifted rule row.old start end to result row.new }
{
    let n = end - start;
    if n < 3 {
        return gone(0);
    }
    let look = look_over(rule, row, start, end);
    if look.passes {
        moving::numbers(row, 2 * to, 2 * start - 2 * to, 2 * n);
        return Kept {
            points: Some(n),
            decisions: 0,
        };
    }
    walk_down(
        rule,
        row,
        start,
        end,
        to,
        look.standing,
        &mut next[..n],
        &mut prev[..n],
        &mut mark[..n],
    )
}
