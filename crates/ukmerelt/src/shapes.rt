// The cleaning of one shape, and of the shapes of a set.
ghost use Rattle.std.specs.Prelude.{◌≡◌, []};
ghost use Rattle.ring.specs.declared.Rule as R;
ghost use Rattle.sets.specs.Outcome.{lent, leaving, shape_outcome, shapes_outcome};

use sets::CleanedSet;

// The shape without its collinear points.
pub fn ukm_simplified_shape(
    points: &[i32],
    ranges: &[[usize; 2]],
    next: &mut [u32],
    prev: &mut [u32],
    mark: &mut [u8],
    out: &mut [i32],
    records: &mut [[usize; 2]],
) -> CleanedSet
    ensures { leaving result
        (lent next.new prev.new mark.new
        out.new records.new [])
        ≡ shape_outcome R.Rule.Collinear points.now ranges.now
        (lent next.old prev.old mark.old
        out.old records.old []) }
{
    CleanedSet::from(sets::simple::simplified_shape(points, ranges, next, prev, mark, out, records))
}

// The shape without its spikes.
pub fn ukm_despiked_shape(
    points: &[i32],
    ranges: &[[usize; 2]],
    next: &mut [u32],
    prev: &mut [u32],
    mark: &mut [u8],
    out: &mut [i32],
    records: &mut [[usize; 2]],
) -> CleanedSet
    ensures { leaving result
        (lent next.new prev.new mark.new
        out.new records.new [])
        ≡ shape_outcome R.Rule.Spike points.now ranges.now
        (lent next.old prev.old mark.old
        out.old records.old []) }
{
    CleanedSet::from(sets::despike::despiked_shape(points, ranges, next, prev, mark, out, records))
}

// The shapes without their collinear points.
pub fn ukm_simplified_shapes(
    points: &[i32],
    contours: &[[usize; 2]],
    shapes: &[[usize; 2]],
    next: &mut [u32],
    prev: &mut [u32],
    mark: &mut [u8],
    out: &mut [i32],
    records: &mut [[usize; 2]],
    groups: &mut [[usize; 2]],
) -> CleanedSet
    ensures { leaving result
        (lent next.new prev.new mark.new
        out.new records.new groups.new)
        ≡ shapes_outcome R.Rule.Collinear points.now contours.now shapes.now
        (lent next.old prev.old mark.old
        out.old records.old groups.old) }
{
    CleanedSet::from(sets::simple::simplified_shapes(
        points, contours, shapes, next, prev, mark, out, records, groups,
    ))
}

// The shapes without their spikes.
pub fn ukm_despiked_shapes(
    points: &[i32],
    contours: &[[usize; 2]],
    shapes: &[[usize; 2]],
    next: &mut [u32],
    prev: &mut [u32],
    mark: &mut [u8],
    out: &mut [i32],
    records: &mut [[usize; 2]],
    groups: &mut [[usize; 2]],
) -> CleanedSet
    ensures { leaving result
        (lent next.new prev.new mark.new
        out.new records.new groups.new)
        ≡ shapes_outcome R.Rule.Spike points.now contours.now shapes.now
        (lent next.old prev.old mark.old
        out.old records.old groups.old) }
{
    CleanedSet::from(sets::despike::despiked_shapes(
        points, contours, shapes, next, prev, mark, out, records, groups,
    ))
}
