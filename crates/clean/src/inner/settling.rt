// The walk of a contour that is not refused, what it writes, and the scratch that is zeroed.
ghost use Rattle.std.specs.Prelude.{◌≡◌, ◌+◌, ◌*◌, ◌<◌, ◌≤◌, pos, length, get_or, set};
ghost use Rattle.ring.specs.Rule.{goes};
ghost use Rattle.ring.specs.inside.Rows.{FirstStand};
ghost use Rattle.clean.specs.Outcome.{as_cleaned};
ghost use Rattle.clean.specs.inside.Settling.{Ready, Settled, Swept, WrittenOut};

use crate::cleaning::Cleaning;
use ring::Rule;

// Point i of the contour becomes point k of the output.
fn put(points: &[i32], i: usize, out: &mut [i32], k: usize)
    requires { (2 * i + 1 < length points.now) × (2 * k + 1 < length out.old) }
    ensures { out.new
        ≡ set (set out.old (2 * k) (get_or points.now (2 * i) (pos 0)))
        (2 * k + 1) (get_or points.now (2 * i + 1) (pos 0)) }
{
    out[2 * k] = points[2 * i];
    out[2 * k + 1] = points[2 * i + 1];
}

// How many points survive, and how many of them are marked.
#[derive(Clone, Copy)]
pub struct Survived {
    pub points: usize,
    pub marked: usize,
}

// Writes the points that survive in front of the output. The mark of one that survives is 0 or 1.
fn write(points: &[i32], mark: &[u8], out: &mut [i32]) -> Survived
    requires points_len { length points.now ≡ 2 * length mark.now }
    requires points_in_bounds { length points.now ≤ length out.old }
    ensures { WrittenOut points.now mark.now out.old result out.new }
{
    let mut kept = 0;
    let mut marked = 0;
    for (i, own) in mark.iter().enumerate() {
        if *own < 2 {
            put(points, i, out, kept);
            kept += 1;
            marked += usize::from(*own);
        }
    }
    Survived {
        points: kept,
        marked,
    }
}

// The walk and what it writes, with scratch of exactly the points' count, of three points or more that were looked over
// already, from one on before which all stand.
pub fn settle_from(
    rule: Rule,
    points: &[i32],
    standing: usize,
    next: &mut [u32],
    prev: &mut [u32],
    mark: &mut [u8],
    out: &mut [i32],
) -> Cleaning
    requires ready { Ready points.now next.old prev.old mark.old out.old × (3 ≤ length mark.old) }
    requires standing_in_bounds { (standing < length mark.old)
        × FirstStand (goes rule points.now) (length mark.old) standing }
    ensures { Settled rule points.now out.old (as_cleaned result) out.new }
{
    let walked = ring::inner::walk(rule, points, standing, next, prev, mark);
    let decisions = walked.decisions;
    if walked.kept {
        let survived = write(points, mark, out);
        let pending = survived.points - survived.marked;
        Cleaning {
            kept: Some(survived.points),
            decisions,
            turns: ring::inner::turns(walked, survived.points, pending, prev, mark),
        }
    } else {
        Cleaning {
            kept: None,
            decisions,
            turns: decisions,
        }
    }
}

// The same of any count of points, looked over first. Where all stand the contour is copied, after as many decisions,
// each a turn, and nothing is linked; otherwise the walk begins at the first that is to go.
pub fn settle(
    rule: Rule,
    points: &[i32],
    next: &mut [u32],
    prev: &mut [u32],
    mark: &mut [u8],
    out: &mut [i32],
) -> Cleaning
    requires { Ready points.now next.old prev.old mark.old out.old }
    ensures { Settled rule points.now out.old (as_cleaned result) out.new }
{
    if mark.len() < 3 {
        return Cleaning {
            kept: None,
            decisions: 0,
            turns: 0,
        };
    }
    let standing = ring::inner::standing(rule, points, mark.len());
    if standing == mark.len() {
        rows::inner::copy(points, out, 0);
        return Cleaning {
            kept: Some(mark.len()),
            decisions: mark.len(),
            turns: mark.len(),
        };
    }
    settle_from(rule, points, standing, next, prev, mark, out)
}

// The same, with the scratch zeroed after it.
pub fn sweep(
    rule: Rule,
    points: &[i32],
    next: &mut [u32],
    prev: &mut [u32],
    mark: &mut [u8],
    out: &mut [i32],
) -> Cleaning
    requires { Ready points.now next.old prev.old mark.old out.old }
    ensures settled { Settled rule points.now out.old (as_cleaned result) out.new }
    ensures swept { Swept (length mark.old) next.new prev.new mark.new }
{
    let cleaned = settle(rule, points, next, prev, mark, out);
    next.fill(0);
    prev.fill(0);
    mark.fill(0);
    cleaned
}
