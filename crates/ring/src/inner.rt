// The rows that link a ring, the rule on them, and the walk over them.
ghost use Rattle.std.specs.Prelude.{◌≡◌, true, ◌<◌, ◌≤◌, ◌^◌, length};
ghost use Rattle.grid.specs.Limits.{limit, narrow};
ghost use Rattle.grid.specs.Edges.{aligned};
ghost use Rattle.grid.specs.Domain.{Contour};
ghost use Rattle.grid.specs.inside.Edges.{Short};
ghost use Rattle.grid.specs.inside.Rows.{Vertices};
ghost use Rattle.ring.specs.Walk.{unmarked as due_mark, Survivor, survivors, occurrences, fresh};
ghost use Rattle.ring.specs.declared.Rule as R;
ghost use Rattle.ring.specs.Rule.{by, goes_along as goes_along_by, goes as goes_by};
ghost use Rattle.ring.specs.Promises.{idle_round as round_of};
ghost use Rattle.ring.specs.inside.Rows.{AllLinked, Begun, Ended, FirstStand, Halted, Idling, Level, Linked, Removable, Removed, Standing, Unlinked, Unmarked, UnmarkedAbout, first_marked, turns_of};

use crate::{Ending, Rule};
use grid::Edge;

// A position of a row as an index.
pub fn wide(x: u32) -> usize
    ensures { result ≡ x }
{
    x as usize
}

// An index as a position of a row.
fn narrow(x: usize) -> u32
    requires { x < 2 ^ 32 }
    ensures { result ≡ x }
{
    x as u32
}

// Links all positions in a ring, none marked.
pub fn link(next: &mut [u32], prev: &mut [u32], mark: &mut [u8])
    requires { Level next.old prev.old mark.old }
    ensures { AllLinked (length mark.old)
        mark.new next.new prev.new }
{
    let n = mark.len();
    mark.fill(0);
    for i in 1..n {
        prev[i] = narrow(i - 1);
        next[i - 1] = narrow(i);
    }
    prev[0] = narrow(n - 1);
    next[n - 1] = 0;
}

// Marks the first k positions of a new ring.
fn mark_first(mark: &mut [u8], k: usize)
    requires { (mark.old ≡ fresh (length mark.old)) × (k ≤ length mark.old) }
    ensures { mark.new ≡ first_marked (length mark.old) k }
{
    mark[..k].fill(1);
}

// Takes the mark off a survivor p, and says how many marks that was: its mark is 0 or 1.
fn unmark(mark: &mut [u8], p: usize) -> usize
    requires { Survivor mark.old p }
    ensures { Unmarked mark.old p mark.new result }
{
    let was = mark[p];
    mark[p] = 0;
    usize::from(was)
}

// Takes the marks off p and its neighbours, and says how many marks that was.
fn unmark_about(next: &[u32], prev: &[u32], mark: &mut [u8], p: usize) -> usize
    requires { Survivor mark.old p × Linked mark.old next.now prev.now }
    ensures { UnmarkedAbout mark.old p mark.new result }
{
    let after = wide(next[p]);
    let before = wide(prev[p]);
    let first = unmark(mark, p);
    let second = unmark(mark, after);
    let third = unmark(mark, before);
    first + second + third
}

// Takes c out of the rows, so that its neighbours are neighbours of each other, and says which was its predecessor.
fn unlink(next: &mut [u32], prev: &mut [u32], mark: &mut [u8], c: usize) -> usize
    requires { Removable mark.old next.old prev.old c }
    ensures { Unlinked mark.old c
        mark.new next.new prev.new result }
{
    let after = next[c];
    let before = prev[c];
    next[wide(before)] = after;
    prev[wide(after)] = before;
    mark[c] = 2;
    wide(before)
}

// Removes vertex c, and unmarks its predecessor, that one's new successor and its predecessor. Says how many marks that took off.
pub fn remove(next: &mut [u32], prev: &mut [u32], mark: &mut [u8], c: usize) -> usize
    requires { Removable mark.old next.old prev.old c }
    ensures { Removed mark.old c
        mark.new next.new prev.new result }
{
    let before = unlink(next, prev, mark, c);
    unmark_about(next, prev, mark, before)
}

// Whether a vertex where the way does not turn is to go by the rule Spike, by the edges to it and from it.
fn spike_along(to: Edge, from: Edge) -> bool
    requires { Short limit to from × (aligned to from ≡ true) }
    ensures { result ≡ goes_along_by R.Rule.Spike to from }
{
    if grid::still(to) {
        return true;
    }
    if grid::still(from) {
        return true;
    }
    grid::inner::backward(to, from)
}

// Whether a vertex is to go by the rule Collinear, or by the rule Spike, by the edges to it and from it. With a cross that
// is not 0 it stays by either rule, and neither edge leads to an equal point. LLVM passes on a bool that is a constant,
// and no enum.
fn goes_along(collinear: bool, to: Edge, from: Edge) -> bool
    requires { Short limit to from }
    ensures { result ≡ goes_along_by (by collinear) to from }
{
    if !grid::inner::aligned(to, from) {
        return false;
    }
    if collinear {
        return true;
    }
    spike_along(to, from)
}

// Whether the vertex at a position is to go, with these neighbours.
pub fn goes(collinear: bool, points: &[i32], before: usize, at: usize, after: usize) -> bool
    requires { Vertices points.now before at after }
    ensures { result ≡ goes_by (by collinear) points.now before at after }
{
    let to = grid::inner::edge_at(points, before, at);
    let from = grid::inner::edge_at(points, at, after);
    goes_along(collinear, to, from)
}

// How many vertices stand from the front of a contour, by the rule Collinear or by the rule Spike: the position of the first
// that is to go with its neighbours there, or n.
pub fn standing_by(collinear: bool, points: &[i32], n: usize) -> usize
    requires { Contour points.now n × (0 < n) }
    ensures { Standing (goes_by (by collinear) points.now) n result }
{
    let last = n - 1;
    let closing = grid::inner::edge_at(points, last, 0);
    let mut to = closing;
    for i in 0..last {
        let from = grid::inner::edge_at(points, i, i + 1);
        if goes_along(collinear, to, from) {
            return i;
        }
        to = from;
    }
    if goes_along(collinear, to, closing) {
        return last;
    }
    n
}

// The same by a rule. Of a box all stand, which takes no product to tell.
pub fn standing(rule: Rule, points: &[i32], n: usize) -> usize
    requires { Contour points.now n × (0 < n) }
    ensures { Standing (goes_by rule points.now) n result }
{
    if grid::inner::boxes::is_box(points, n) {
        return n;
    }
    match rule {
        Rule::Collinear => standing_by(true, points, n),
        Rule::Spike => standing_by(false, points, n),
    }
}

// How many positions are not marked. They are so few that 16 bits count them, eight at a time.
pub fn unmarked(mark: &[u8]) -> usize
    requires { occurrences due_mark mark.now < 2 ^ 16 }
    ensures { result ≡ occurrences due_mark mark.now }
{
    let found: u16 = mark.iter().map(|m| u16::from(*m == 0)).sum();
    usize::from(found)
}

// How many positions a round from a marked one has up to its last unmarked one: all that remain, but for the marked ones
// right before it.
fn idle_round(prev: &[u32], mark: &[u8], remaining: usize, at: usize) -> usize
    requires { Idling mark.now prev.now at remaining }
    ensures { result ≡ round_of mark.now at }
{
    let mut turns = remaining;
    let mut last = wide(prev[at]);
    while mark[last] != 0 {
        turns -= 1;
        last = wide(prev[last]);
    }
    turns
}

// The turns of a walk that kept a ring, by how many positions remain and how many of them are unmarked still. Where none
// is each turn decided; otherwise one round more is made, up to the last unmarked one, in which no vertex is tested.
pub fn turns(ending: Ending, remaining: usize, pending: usize, prev: &[u32], mark: &[u8]) -> usize
    requires { Halted mark.now prev.now ending
        × (remaining ≡ length (survivors mark.now))
        × (pending ≡ occurrences due_mark mark.now) }
    ensures { result ≡ turns_of ending mark.now }
{
    if pending == 0 {
        return ending.decisions;
    }
    ending.decisions - pending + idle_round(prev, mark, remaining, ending.at)
}

// The walk of a ring that is linked, from position k on: the first k stand, and are marked. It stops where it meets a
// marked position: from there on nothing goes any more, and each position that is not marked yet takes one decision.
// These are counted beforehand, so that only a removal changes the count. Each rule has a loop of its own. What the walk has
// yet to step over is told by `turns`.
fn round(
    collinear: bool,
    points: &[i32],
    k: usize,
    next: &mut [u32],
    prev: &mut [u32],
    mark: &mut [u8],
) -> Ending
    requires contour { Contour points.now (length mark.old) × (3 ≤ length mark.old) }
    requires begun { Begun (goes_by (by collinear) points.now) (length mark.old) k
        mark.old next.old prev.old }
    ensures { Ended (goes_by (by collinear) points.now) (length mark.old)
        mark.new prev.new result }
{
    let mut remaining = mark.len();
    let mut decisions = mark.len();
    let mut at = k;
    while mark[at] == 0 {
        let before = wide(prev[at]);
        let after = wide(next[at]);
        if goes(collinear, points, before, at, after) {
            if remaining <= 3 {
                return Ending {
                    kept: false,
                    decisions: decisions + 1 - unmarked(mark),
                    at,
                };
            }
            let taken = remove(next, prev, mark, at);
            decisions += taken;
            remaining -= 1;
            at = before;
        } else {
            mark[at] = 1;
            at = after;
        }
    }
    Ending {
        kept: true,
        decisions,
        at,
    }
}

// The walk of a contour of three points or more, of which the first k stand. Its marks tell the survivors.
pub fn walk(
    rule: Rule,
    points: &[i32],
    k: usize,
    next: &mut [u32],
    prev: &mut [u32],
    mark: &mut [u8],
) -> Ending
    requires contour { Contour points.now (length mark.old) × (3 ≤ length mark.old) }
    requires next_len { (length next.old ≡ length mark.old) × (length prev.old ≡ length mark.old) }
    requires k_in_bounds { (k < length mark.old) × FirstStand (goes_by rule points.now) (length mark.old) k }
    ensures { Ended (goes_by rule points.now) (length mark.old)
        mark.new prev.new result }
{
    link(next, prev, mark);
    mark_first(mark, k);
    match rule {
        Rule::Collinear => round(true, points, k, next, prev, mark),
        Rule::Spike => round(false, points, k, next, prev, mark),
    }
}
