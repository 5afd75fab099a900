// The contours of a pool, cleaned one after the other where they lie.
ghost use mathlib.Core.Path.{◌≡◌};
ghost use Rattle.sifting.specs.inside.Cleaning.{Notable, noted, noting, Next, going, field, contour_at, placing, Cleanable, Run};
ghost use Rattle.sets.specs.Fates.{fate};

use crate::inner::sifting;
use crate::inner::sifting::Kept;
use pool::inner::records;
use ring::Rule;

// How far a cleaning has come: how many contours and points are kept, how many both presses hold of them and how many the second, and after how many decisions.
#[derive(Clone, Copy)]
pub struct Progress {
    pub contours: usize,
    pub points: usize,
    pub held: usize,
    pub second: usize,
    pub decisions: usize,
}

// How far the cleaning has come with a contour: where it stays its record is written behind the others. The press is 0 or 1.
fn note(kept: Kept, at: Progress, records: &mut [[usize; 4]], tool: usize, press: usize) -> Progress
    requires { Notable kept at press records.old }
    ensures { noted result records.new
        ≡ noting kept at tool press records.old }
{
    let decisions = at.decisions + kept.decisions;
    let Some(points) = kept.points else {
        return Progress { decisions, ..at };
    };
    let end = at.points + points;
    let size = records::holding(points);
    records[at.contours] = [at.points, end, tool, press];
    Progress {
        contours: at.contours + 1,
        points: end,
        held: at.held + size,
        second: at.second + press * size,
        decisions,
    }
}

// Contour number i, cleaned and moved down behind what is kept.
fn next_contour(
    rule: Rule,
    points: &mut [i32],
    records: &mut [[usize; 4]],
    i: usize,
    at: Progress,
    next: &mut [u32],
    prev: &mut [u32],
    mark: &mut [u8],
) -> Progress
    requires { Next points.old records.old i at next.old prev.old mark.old }
    ensures { going result points.new records.new
        ≡ placing (fate rule (contour_at points.old records.old i))
        (field records.old i 2) (field records.old i 3)
        (going at points.old records.old) }
{
    let [start, end, tool, press] = records[i];
    let kept = sifting::sift(rule, points, start, end, at.points, next, prev, mark);
    note(kept, at, records, tool, press)
}

// All n contours of a pool.
pub fn clean(
    rule: Rule,
    points: &mut [i32],
    records: &mut [[usize; 4]],
    n: usize,
    next: &mut [u32],
    prev: &mut [u32],
    mark: &mut [u8],
) -> Progress
    requires { Cleanable points.old records.old n next.old prev.old mark.old }
    ensures { Run rule points.old records.old n result points.new records.new }
{
    let mut at = Progress {
        contours: 0,
        points: 0,
        held: 0,
        second: 0,
        decisions: 0,
    };
    for i in 0..n {
        at = next_contour(rule, points, records, i, at, next, prev, mark);
    }
    at
}
