// Contour sets: points, and the ranges of their contours.
ghost use Rattle.std.specs.Prelude.{◌≡◌, []};
ghost use Rattle.replies.specs.Ladder.{first_of};
ghost use Rattle.replies.specs.Refusals.{told};
ghost use Rattle.replies.specs.Verdicts.{answered};
ghost use Rattle.rows.specs.Parts.{part};
ghost use Rattle.buffer.specs.Answers.{leaving, counted_as, packed_as};
ghost use Rattle.buffer.specs.Contours.{refusals, is_empty, is_single, points_count, contours_count, contour_at, first_contour, with_contour, with_shape, with_shapes, with_one_more};

use crate::answer::Sizes;
use crate::inner::{joining, packing, parts, refusing};
use crate::{ranges, refusal, shapes};
use replies::Refusal;

// What every call asks of a contour set: its first refusal, if any.
pub fn check(points: &[i32], ranges: &[[usize; 2]]) -> Result<(), Refusal>
    ensures { told result ≡ first_of (refusals points.now ranges.now) }
{
    refusing::contours(grid::LIMIT, points, ranges)
}

// Whether the set has no points, even with ranges.
pub fn is_empty(points: &[i32], ranges: &[[usize; 2]]) -> Result<bool, Refusal>
    ensures { answered result ≡ is_empty points.now ranges.now }
{
    check(points, ranges)?;
    Ok(points.len() / 2 == 0)
}

// Whether the set has exactly one contour.
pub fn is_single_contour(points: &[i32], ranges: &[[usize; 2]]) -> Result<bool, Refusal>
    ensures { answered result ≡ is_single points.now ranges.now }
{
    check(points, ranges)?;
    Ok(ranges.len() == 1)
}

// How many points the set has.
pub fn points_count(points: &[i32], ranges: &[[usize; 2]]) -> Result<usize, Refusal>
    ensures { counted_as result ≡ points_count points.now ranges.now }
{
    check(points, ranges)?;
    Ok(points.len() / 2)
}

// How many contours the set has.
pub fn contours_count(points: &[i32], ranges: &[[usize; 2]]) -> Result<usize, Refusal>
    ensures { counted_as result ≡ contours_count points.now ranges.now }
{
    check(points, ranges)?;
    Ok(ranges.len())
}

// Contour number k, as a part of the points; the empty part at their front where it is not there.
pub fn contour<'a>(points: &'a [i32], ranges: &[[usize; 2]], k: usize) -> &'a [i32]
    ensures { part result ≡ contour_at (part points.entry) ranges.now k }
{
    if check(points, ranges).is_err() {
        return &points[..0];
    }
    if ranges.len() <= k {
        return &points[..0];
    }
    parts::named(points, ranges, k)
}

// The first contour, as a part of the points: all of them where there are no ranges.
pub fn first_contour<'a>(points: &'a [i32], ranges: &[[usize; 2]]) -> &'a [i32]
    ensures { part result ≡ first_contour (part points.entry) ranges.now }
{
    if ranges.len() != 0 {
        return contour(points, ranges, 0);
    }
    if grid::domain(points).is_err() {
        return &points[..0];
    }
    points
}

// Packs one contour.
pub fn set_with_contour(
    contour: &[i32],
    out: &mut [i32],
    records: &mut [[usize; 2]],
) -> Result<Sizes, Refusal>
    ensures { leaving (packed_as result) out.new records.new []
        ≡ with_contour contour.now out.old records.old }
{
    grid::domain(contour)?;
    let one = [[0, contour.len() / 2]];
    packing::contours(contour, &one, out, records)
}

// Packs the contours of a shape.
pub fn set_with_shape(
    points: &[i32],
    ranges: &[[usize; 2]],
    out: &mut [i32],
    records: &mut [[usize; 2]],
) -> Result<Sizes, Refusal>
    ensures { leaving (packed_as result) out.new records.new []
        ≡ with_shape points.now ranges.now out.old records.old }
{
    check(points, ranges)?;
    packing::contours(points, ranges, out, records)
}

// Packs the contours of shapes; where a shape ends is dropped.
pub fn set_with_shapes(
    points: &[i32],
    contours: &[[usize; 2]],
    shapes: &[[usize; 2]],
    out: &mut [i32],
    records: &mut [[usize; 2]],
) -> Result<Sizes, Refusal>
    ensures { leaving (packed_as result) out.new records.new []
        ≡ with_shapes points.now contours.now shapes.now
        out.old records.old }
{
    shapes::check(points, contours, shapes)?;
    packing::contours(points, contours, out, records)
}

// Writes the set and one contour more.
pub fn add_contour(
    points: &[i32],
    ranges: &[[usize; 2]],
    contour: &[i32],
    out: &mut [i32],
    records: &mut [[usize; 2]],
) -> Result<Sizes, Refusal>
    ensures { leaving (packed_as result) out.new records.new []
        ≡ with_one_more points.now ranges.now contour.now
        out.old records.old }
{
    let n = points.len() / 2;
    refusal::of_both(points, contour, ranges::sound(ranges, n))?;
    let room = (points.len() + contour.len() <= out.len()) & (ranges.len() + 1 <= records.len());
    if !room {
        return Err(Refusal::Room);
    }
    let one = [[0, contour.len() / 2]];
    joining::both_numbers(points, contour, out);
    joining::both_records(ranges, &one, n, records);
    Ok(Sizes {
        points: n + contour.len() / 2,
        contours: ranges.len() + 1,
        shapes: 0,
    })
}
