// Shapes, cleaned one after the other.
ghost use Rattle.std.specs.Prelude.{◌≡◌, ◌<◌, [], length, slice_index_or};
ghost use Rattle.buffer.specs.Spans.{span, spans};
ghost use Rattle.buffer.specs.Sets.{cut, contours, shapes as shapes_of};
ghost use Rattle.sets.specs.inside.Contour.{reached, none_yet};
ghost use Rattle.sets.specs.inside.Shape.{Going, tested, run_shape, Zeroed};
ghost use Rattle.sets.specs.inside.Shapes.{Groupable, Addable, Within, Each, grouped, adding, added, run_shapes, only as only_of};

use crate::inner::contour::{Progress, Tried};
use crate::inner::shape;
use ring::Rule;

// How many shapes are written, and how far the cleaning has come.
#[derive(Clone, Copy)]
pub struct Total {
    pub shapes: usize,
    pub progress: Progress,
}

// How far the cleaning has come with a shape: where it stands its range of contours is written behind the others.
fn group(tried: Tried, at: Total, groups: &mut [[usize; 2]]) -> Total
    requires { Groupable at groups.old }
    ensures { grouped result.shapes (reached result.progress [] []) groups.new
        ≡ adding tried.stays (reached tried.progress [] [])
        (grouped at.shapes (reached at.progress [] []) groups.old) }
{
    let progress = tried.progress;
    if !tried.stays {
        return Total { progress, ..at };
    }
    groups[at.shapes] = [at.progress.contours, progress.contours];
    Total {
        shapes: at.shapes + 1,
        progress,
    }
}

// A shape behind what is written, with its range of contours.
fn add_shape(
    rule: Rule,
    points: &[i32],
    ranges: &[[usize; 2]],
    at: Total,
    next: &mut [u32],
    prev: &mut [u32],
    mark: &mut [u8],
    out: &mut [i32],
    records: &mut [[usize; 2]],
    groups: &mut [[usize; 2]],
) -> Total
    requires { Addable points.now ranges.now at next.old prev.old mark.old
        out.old records.old groups.old }
    ensures { grouped result.shapes (reached result.progress out.new records.new) groups.new
        ≡ added
        (run_shape rule (contours points.now (spans ranges.now))
        (reached at.progress out.old records.old))
        (grouped at.shapes (reached at.progress out.old records.old) groups.old) }
{
    let tried = shape::shape(
        rule,
        points,
        ranges,
        at.progress,
        next,
        prev,
        mark,
        out,
        records,
    );
    group(tried, at, groups)
}

// The shapes of the ranges, one after the other; those that fall are dropped.
fn each(
    rule: Rule,
    points: &[i32],
    contours: &[[usize; 2]],
    shapes: &[[usize; 2]],
    next: &mut [u32],
    prev: &mut [u32],
    mark: &mut [u8],
    out: &mut [i32],
    records: &mut [[usize; 2]],
    groups: &mut [[usize; 2]],
) -> Total
    requires { Each points.now contours.now shapes.now next.old prev.old mark.old
        out.old records.old groups.old }
    ensures { grouped result.shapes (reached result.progress out.new records.new) groups.new
        ≡ run_shapes rule
        (shapes_of points.now (spans contours.now) (spans shapes.now))
        (grouped 0 (reached none_yet out.old records.old) groups.old) }
{
    let mut at = Total {
        shapes: 0,
        progress: Progress {
            points: 0,
            contours: 0,
            decisions: 0,
            turns: 0,
        },
    };
    for &[from, to] in shapes {
        let own = &contours[from..to];
        at = add_shape(
            rule, points, own, at, next, prev, mark, out, records, groups,
        );
    }
    at
}

// All of the scratch is zeroed.
pub fn zero_scratch(next: &mut [u32], prev: &mut [u32], mark: &mut [u8])
    ensures { Zeroed next.old prev.old mark.old
        next.new prev.new mark.new }
{
    next.fill(0);
    prev.fill(0);
    mark.fill(0);
}

// The shapes in front of the rows, with the scratch zeroed after them.
pub fn sweep_shapes(
    rule: Rule,
    points: &[i32],
    contours: &[[usize; 2]],
    shapes: &[[usize; 2]],
    next: &mut [u32],
    prev: &mut [u32],
    mark: &mut [u8],
    out: &mut [i32],
    records: &mut [[usize; 2]],
    groups: &mut [[usize; 2]],
) -> Total
    requires { Each points.now contours.now shapes.now next.old prev.old mark.old
        out.old records.old groups.old }
    ensures groups_after { grouped result.shapes (reached result.progress out.new records.new) groups.new
        ≡ run_shapes rule
        (shapes_of points.now (spans contours.now) (spans shapes.now))
        (grouped 0 (reached none_yet out.old records.old) groups.old) }
    ensures zeroed { Zeroed next.old prev.old mark.old
        next.new prev.new mark.new }
{
    let at = each(
        rule, points, contours, shapes, next, prev, mark, out, records, groups,
    );
    zero_scratch(next, prev, mark);
    at
}

// The only shape of a set stands where it is written.
fn only(at: Total) -> Tried
    ensures { result ≡ only_of at }
{
    Tried {
        stays: at.shapes == 1,
        progress: at.progress,
    }
}

// A shape in front of the rows, as the only one of a set.
pub fn sweep_shape(
    rule: Rule,
    points: &[i32],
    ranges: &[[usize; 2]],
    next: &mut [u32],
    prev: &mut [u32],
    mark: &mut [u8],
    out: &mut [i32],
    records: &mut [[usize; 2]],
) -> Tried
    requires { Going points.now ranges.now none_yet next.old prev.old mark.old out.old records.old }
    ensures records_after { tested result.stays (reached result.progress out.new records.new)
        ≡ run_shape rule (contours points.now (spans ranges.now))
        (reached none_yet out.old records.old) }
    ensures zeroed { Zeroed next.old prev.old mark.old
        next.new prev.new mark.new }
{
    let whole = [[0, ranges.len()]];
    let mut group = [[0usize; 2]; 1];
    let at = sweep_shapes(
        rule, points, ranges, &whole, next, prev, mark, out, records, &mut group,
    );
    only(at)
}
