// The shapes of a job: a path for each, of its contours.
ghost use Rattle.std.specs.Prelude.{◌≡◌, ◌+◌, ◌≤◌, length, true};
ghost use Rattle.grid.specs.Limits.{limit, all_on_grid};
ghost use Rattle.buffer.specs.Sets.{joined};
ghost use Rattle.setfile.specs.inside.Reading.{Readable};
ghost use Rattle.report.specs.inside.Lines.{Put};
ghost use Rattle.report.specs.Listing.{job};
ghost use Rattle.picture.specs.Picture.{coordinate, coordinates, outline, shapes, job_shapes};
ghost use Rattle.picture.specs.inside.Parts.{before};

use report::inner::text;
use setfile::inner::headers;

// Puts a coordinate, and a space behind it.
fn put_coordinate(text: &mut [u8], at: usize, z: i32) -> usize
    requires { at + length (coordinate z) ≤ length text.old }
    ensures { Put at (coordinate z) text.old result text.new }
{
    let behind = text::put_signed(text, at, i64::from(z));
    text::put(text, behind, b" ")
}

// Puts the coordinates of a contour.
fn put_coordinates(text: &mut [u8], from: usize, contour: &[i32]) -> usize
    requires contour_value { all_on_grid limit contour.now ≡ true }
    requires contour_in_bounds { from + length (coordinates contour.now) ≤ length text.old }
    ensures { Put from (coordinates contour.now) text.old result text.new }
{
    let mut behind = from;
    for &z in contour {
        behind = put_coordinate(text, behind, z);
    }
    behind
}

// Puts a contour as a part of a path; of an empty one nothing.
fn put_outline(text: &mut [u8], at: usize, contour: &[i32]) -> usize
    requires contour_value { all_on_grid limit contour.now ≡ true }
    requires contour_in_bounds { at + length (outline contour.now) ≤ length text.old }
    ensures { Put at (outline contour.now) text.old result text.new }
{
    if contour.len() == 0 {
        return at;
    }
    let second = text::put(text, at, b"M");
    let third = put_coordinates(text, second, contour);
    text::put(text, third, b"Z")
}

// Puts what stands before contour number i, from 0.
fn put_before(text: &mut [u8], at: usize, begins: bool, i: usize) -> usize
    requires { at + length (before begins i) ≤ length text.old }
    ensures { Put at (before begins i) text.old result text.new }
{
    if !begins {
        return at;
    }
    if i == 0 {
        return text::put(text, at, b"<path d=\"");
    }
    text::put(text, at, b"\"/>\n<path d=\"")
}

// Puts a path for each shape of a file's n contours.
pub fn put(
    second: bool,
    bytes: &[u8],
    n: usize,
    points: &[i32],
    text: &mut [u8],
    from: usize,
) -> usize
    requires { Readable second bytes.now n
        × (points.now ≡ joined (job bytes.now))
        × (from + length (shapes (job_shapes bytes.now)) ≤ length text.old) }
    ensures { Put from (shapes (job_shapes bytes.now)) text.old result text.new }
{
    let mut behind = from;
    let mut at: usize = 16;
    let mut start: usize = 0;
    for i in 0..n {
        let h = headers::header_at(second, bytes, at);
        let begun = put_before(text, behind, h.begins, i);
        let end = start + 2 * h.count;
        behind = put_outline(text, begun, &points[start..end]);
        at += headers::size(second, h);
        start = end;
    }
    if n == 0 {
        return behind;
    }
    text::put(text, behind, b"\"/>\n")
}
