// Shape sets: points, the ranges of their contours, and the ranges of their shapes.
ghost use Rattle.std.specs.Prelude.{◌≡◌};
ghost use Rattle.replies.specs.Ladder.{first_of};
ghost use Rattle.replies.specs.Refusals.{told};
ghost use Rattle.replies.specs.Verdicts.{answered};
ghost use Rattle.rows.specs.Parts.{part};
ghost use Rattle.buffer.specs.Answers.{leaving, counted_as, packed_as};
ghost use Rattle.buffer.specs.Shapes.{refusals, is_empty, points_count, contours_count, shapes_count, contours_in, contour_of, with_contour, with_shape, with_shapes, with_one_more, both_sound};

use crate::answer::Sizes;
use crate::inner::{joining, packing, parts, refusing};
use crate::{contours, ranges, refusal};
use replies::Refusal;

// What every call asks of a shape set: its first refusal, if any.
pub fn check(points: &[i32], contours: &[[usize; 2]], shapes: &[[usize; 2]]) -> Result<(), Refusal>
    ensures { told result ≡ first_of (refusals points.now contours.now shapes.now) }
{
    refusing::shapes(grid::LIMIT, points, contours, shapes)
}

// Whether the set has no points, even with ranges.
pub fn is_empty(
    points: &[i32],
    contours: &[[usize; 2]],
    shapes: &[[usize; 2]],
) -> Result<bool, Refusal>
    ensures { answered result ≡ is_empty points.now contours.now shapes.now }
{
    check(points, contours, shapes)?;
    Ok(points.len() / 2 == 0)
}

// How many points the set has.
pub fn points_count(
    points: &[i32],
    contours: &[[usize; 2]],
    shapes: &[[usize; 2]],
) -> Result<usize, Refusal>
    ensures { counted_as result ≡ points_count points.now contours.now shapes.now }
{
    check(points, contours, shapes)?;
    Ok(points.len() / 2)
}

// How many contours the set has.
pub fn contours_count(
    points: &[i32],
    contours: &[[usize; 2]],
    shapes: &[[usize; 2]],
) -> Result<usize, Refusal>
    ensures { counted_as result ≡ contours_count points.now contours.now shapes.now }
{
    check(points, contours, shapes)?;
    Ok(contours.len())
}

// How many shapes the set has.
pub fn shapes_count(
    points: &[i32],
    contours: &[[usize; 2]],
    shapes: &[[usize; 2]],
) -> Result<usize, Refusal>
    ensures { counted_as result ≡ shapes_count points.now contours.now shapes.now }
{
    check(points, contours, shapes)?;
    Ok(shapes.len())
}

// How many contours shape number s has, and 0 where it is not there.
pub fn contours_in(
    points: &[i32],
    contours: &[[usize; 2]],
    shapes: &[[usize; 2]],
    s: usize,
) -> Result<usize, Refusal>
    ensures { counted_as result ≡ contours_in points.now contours.now shapes.now s }
{
    check(points, contours, shapes)?;
    if shapes.len() <= s {
        return Ok(0);
    }
    Ok(shapes[s][1] - shapes[s][0])
}

// Contour number c of shape number s, as a part of the points; the empty part at their front where it is not there.
pub fn contour_of<'a>(
    points: &'a [i32],
    contours: &[[usize; 2]],
    shapes: &[[usize; 2]],
    s: usize,
    c: usize,
) -> &'a [i32]
    ensures { part result ≡ contour_of (part points.entry) contours.now shapes.now s c }
{
    let held = contours_in(points, contours, shapes, s).unwrap_or(0);
    if held <= c {
        return &points[..0];
    }
    let first = shapes[s][0];
    parts::named(points, contours, first + c)
}

// Packs one shape, of one contour.
pub fn set_with_contour(
    contour: &[i32],
    out: &mut [i32],
    records: &mut [[usize; 2]],
    groups: &mut [[usize; 2]],
) -> Result<Sizes, Refusal>
    ensures { leaving (packed_as result) out.new records.new groups.new
        ≡ with_contour contour.now out.old records.old groups.old }
{
    grid::domain(contour)?;
    let one = [[0, contour.len() / 2]];
    let only = [[0, 1]];
    packing::shapes(contour, &one, &only, out, records, groups)
}

// Packs one shape.
pub fn set_with_shape(
    points: &[i32],
    ranges: &[[usize; 2]],
    out: &mut [i32],
    records: &mut [[usize; 2]],
    groups: &mut [[usize; 2]],
) -> Result<Sizes, Refusal>
    ensures { leaving (packed_as result) out.new records.new groups.new
        ≡ with_shape points.now ranges.now out.old
        records.old groups.old }
{
    contours::check(points, ranges)?;
    let only = [[0, ranges.len()]];
    packing::shapes(points, ranges, &only, out, records, groups)
}

// Packs shapes.
pub fn set_with_shapes(
    points: &[i32],
    contours: &[[usize; 2]],
    shapes: &[[usize; 2]],
    out: &mut [i32],
    records: &mut [[usize; 2]],
    groups: &mut [[usize; 2]],
) -> Result<Sizes, Refusal>
    ensures { leaving (packed_as result) out.new records.new groups.new
        ≡ with_shapes points.now contours.now shapes.now
        out.old records.old groups.old }
{
    check(points, contours, shapes)?;
    packing::shapes(points, contours, shapes, out, records, groups)
}

// Whether the ranges of a set and of a shape that is added to it are sound.
fn both_sound(
    points: &[i32],
    contours: &[[usize; 2]],
    shapes: &[[usize; 2]],
    more: &[i32],
    ranges: &[[usize; 2]],
) -> bool
    ensures { result ≡ both_sound points.now contours.now shapes.now
        more.now ranges.now }
{
    ranges::sound(contours, points.len() / 2)
        & ranges::sound(shapes, contours.len())
        & ranges::sound(ranges, more.len() / 2)
}

// Writes the set and one shape more.
pub fn add_shape(
    points: &[i32],
    contours: &[[usize; 2]],
    shapes: &[[usize; 2]],
    more: &[i32],
    ranges: &[[usize; 2]],
    out: &mut [i32],
    records: &mut [[usize; 2]],
    groups: &mut [[usize; 2]],
) -> Result<Sizes, Refusal>
    ensures { leaving (packed_as result) out.new records.new groups.new
        ≡ with_one_more points.now contours.now shapes.now
        more.now ranges.now
        out.old records.old groups.old }
{
    refusal::of_both(
        points,
        more,
        both_sound(points, contours, shapes, more, ranges),
    )?;
    let room = (points.len() + more.len() <= out.len())
        & (contours.len() + ranges.len() <= records.len())
        & (shapes.len() + 1 <= groups.len());
    if !room {
        return Err(Refusal::Room);
    }
    let only = [[0, ranges.len()]];
    joining::both_numbers(points, more, out);
    joining::both_records(contours, ranges, points.len() / 2, records);
    joining::both_records(shapes, &only, contours.len(), groups);
    Ok(Sizes {
        points: points.len() / 2 + more.len() / 2,
        contours: contours.len() + ranges.len(),
        shapes: shapes.len() + 1,
    })
}
