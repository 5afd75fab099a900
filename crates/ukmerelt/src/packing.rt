// Sets written in front of lent rows: packed, or enlarged by one.
ghost use Rattle.std.specs.Prelude.{◌≡◌, []};
ghost use Rattle.buffer.specs.Answers.{leaving};
ghost use Rattle.buffer.specs.Contours.{with_one_more as with_one_contour_more};
ghost use Rattle.buffer.specs.Shapes.{with_contour, with_shape, with_shapes, with_one_more};

use buffer::Packed;

// Packs one shape, of one contour.
pub fn ukm_pack_contour(
    contour: &[i32],
    out: &mut [i32],
    records: &mut [[usize; 2]],
    groups: &mut [[usize; 2]],
) -> Packed
    ensures { leaving result out.new records.new groups.new
        ≡ with_contour contour.now out.old records.old groups.old }
{
    Packed::from(buffer::shapes::set_with_contour(contour, out, records, groups))
}

// Packs one shape.
pub fn ukm_pack_shape(
    points: &[i32],
    ranges: &[[usize; 2]],
    out: &mut [i32],
    records: &mut [[usize; 2]],
    groups: &mut [[usize; 2]],
) -> Packed
    ensures { leaving result out.new records.new groups.new
        ≡ with_shape points.now ranges.now out.old
        records.old groups.old }
{
    Packed::from(buffer::shapes::set_with_shape(points, ranges, out, records, groups))
}

// Packs shapes.
pub fn ukm_pack_shapes(
    points: &[i32],
    contours: &[[usize; 2]],
    shapes: &[[usize; 2]],
    out: &mut [i32],
    records: &mut [[usize; 2]],
    groups: &mut [[usize; 2]],
) -> Packed
    ensures { leaving result out.new records.new groups.new
        ≡ with_shapes points.now contours.now shapes.now
        out.old records.old groups.old }
{
    Packed::from(buffer::shapes::set_with_shapes(points, contours, shapes, out, records, groups))
}

// Writes a contour set and one contour more.
pub fn ukm_add_contour(
    points: &[i32],
    ranges: &[[usize; 2]],
    contour: &[i32],
    out: &mut [i32],
    records: &mut [[usize; 2]],
) -> Packed
    ensures { leaving result out.new records.new []
        ≡ with_one_contour_more points.now ranges.now contour.now
        out.old records.old }
{
    Packed::from(buffer::contours::add_contour(points, ranges, contour, out, records))
}

// Writes a shape set and one shape more.
pub fn ukm_add_shape(
    points: &[i32],
    contours: &[[usize; 2]],
    shapes: &[[usize; 2]],
    more: &[i32],
    ranges: &[[usize; 2]],
    out: &mut [i32],
    records: &mut [[usize; 2]],
    groups: &mut [[usize; 2]],
) -> Packed
    ensures { leaving result out.new records.new groups.new
        ≡ with_one_more points.now contours.now shapes.now
        more.now ranges.now
        out.old records.old groups.old }
{
    Packed::from(buffer::shapes::add_shape(
        points, contours, shapes, more, ranges, out, records, groups,
    ))
}
