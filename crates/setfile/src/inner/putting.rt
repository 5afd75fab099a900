// Numbers, contours, shapes and files, written into the row of bytes; each function answers where it ends.
ghost use Rattle.std.specs.Prelude.{◌≡◌, ◌<◌, ◌≤◌, true, length, slice_index, option_map, IfSome};
ghost use Rattle.std.specs.Option.{is_some};
ghost use Rattle.bits.specs.inside.Words.{spelled};
ghost use Rattle.rows.specs.Rows.{front};
ghost use Rattle.grid.specs.Domain.{count};
ghost use Rattle.steps.specs.Bodies.{contour_width};
ghost use Rattle.setfile.specs.Entries.{entry};
ghost use Rattle.setfile.specs.Edition2.{contour_bits};
ghost use Rattle.setfile.specs.Writing.{most_points};
ghost use Rattle.setfile.specs.inside.Bytes.{coded_coordinates, coded_contour};
ghost use Rattle.setfile.specs.Editions.{layout};
ghost use Rattle.setfile.specs.inside.Writing.{Put, Room, Penned, Inked, Countable, Named, Widths, Grouped, shape_bits, shapes_bits, file_with, Ripe};

use crate::inner::head;
use bits::inner::pens;
use bits::inner::pens::Pen;

// A number in two bytes.
pub fn put_pair(n: usize, bytes: &mut [u8], at: usize) -> usize
    requires { Room at (spelled 2 n) bytes.old }
    ensures { Put at (spelled 2 n) bytes.old result bytes.new }
{
    bytes[at..at + 2].copy_from_slice(&((n % 65_536) as u16).to_be_bytes());
    at + 2
}

// The coordinates of a contour.
fn put_coordinates(contour: &[i32], bytes: &mut [u8], at: usize) -> usize
    requires { Room at (coded_coordinates contour.now) bytes.old }
    ensures { Put at (coded_coordinates contour.now) bytes.old result bytes.new }
{
    let mut behind = at;
    for x in contour {
        pens::spell(bytes, behind, u64::from(x.cast_unsigned()));
        behind += 4;
    }
    behind
}

// A contour of edition 1, which begins a shape or not.
fn put_contour_1(begins: bool, contour: &[i32], bytes: &mut [u8], at: usize) -> usize
    requires { (count contour.now ≤ most_points)
        × Room at (coded_contour (entry begins contour.now)) bytes.old }
    ensures { Put at (coded_contour (entry begins contour.now)) bytes.old result
        bytes.new }
{
    let head = usize::from(begins) * 32_768 + contour.len() / 2;
    let behind = put_pair(head, bytes, at);
    put_coordinates(contour, bytes, behind)
}

// A contour of edition 2: its header is one field.
fn put_contour_2(begins: bool, contour: &[i32], width: usize, bytes: &mut [u8], pen: Pen) -> Pen
    requires { Countable contour.now
        × (width ≡ contour_width contour.now)
        × Penned true pen (contour_bits (entry begins contour.now)) bytes.old }
    ensures { Inked true pen (contour_bits (entry begins contour.now)) bytes.old result
        bytes.new }
{
    let head = usize::from(begins) * 2_097_152 + (contour.len() / 2 * 64 + width);
    let headed = pens::write(bytes, pen, 22, head as u64);
    steps::inner::writing::put(bytes, headed, contour, width)
}

// A contour of either edition: one of the second has a width.
fn put_contour(
    begins: bool,
    contour: &[i32],
    width: Option<usize>,
    bytes: &mut [u8],
    pen: Pen,
) -> Pen
    requires { Countable contour.now
        × IfSome width (λ w. w ≡ contour_width contour.now)
        × Penned (is_some width) pen ((layout (is_some width)).coded (entry begins contour.now)) bytes.old }
    ensures { Inked (is_some width) pen ((layout (is_some width)).coded (entry begins contour.now))
        bytes.old result bytes.new }
{
    match width {
        Some(w) => put_contour_2(begins, contour, w, bytes, pen),
        None => Pen {
            at: put_contour_1(begins, contour, bytes, pen.at),
            kept: 0,
            width: 0,
        },
    }
}

// The width that is kept at a position; the first edition has none.
fn width_at(widths: Option<&[u8]>, k: usize) -> Option<usize>
    requires { IfSome widths (λ w. k < length w.now) }
    ensures { result ≡ option_map (λ w. slice_index w.now k) widths.entry }
{
    let w = widths?;
    Some(usize::from(w[k]))
}

// A shape: the contours from one number to another, of which the first begins it.
fn put_shape(
    points: &[i32],
    ranges: &[[usize; 2]],
    widths: Option<&[u8]>,
    from: usize,
    to: usize,
    bytes: &mut [u8],
    pen: Pen,
) -> Pen
    requires { Named points.now ranges.now to
        × IfSome widths (λ w. Widths points.now ranges.now to w.now)
        × Penned (is_some widths) pen (shape_bits (is_some widths) points.now ranges.now from to) bytes.old }
    ensures { Inked (is_some widths.entry) pen
        (shape_bits (is_some widths.entry) points.now ranges.now from to)
        bytes.old result bytes.new }
{
    let mut behind = pen;
    for k in from..to {
        let contour = buffer::inner::parts::named(points, ranges, k);
        let width = width_at(widths, k);
        behind = put_contour(k == from, contour, width, bytes, behind);
    }
    behind
}

// The shapes of a set.
fn put_shapes(
    points: &[i32],
    contours: &[[usize; 2]],
    shapes: &[[usize; 2]],
    widths: Option<&[u8]>,
    bytes: &mut [u8],
    pen: Pen,
) -> Pen
    requires { Named points.now contours.now (length contours.now)
        × Grouped shapes.now (length contours.now)
        × IfSome widths (λ w. Widths points.now contours.now (length contours.now) w.now)
        × Penned (is_some widths) pen (shapes_bits (is_some widths) points.now contours.now shapes.now) bytes.old }
    ensures { Inked (is_some widths.entry) pen
        (shapes_bits (is_some widths.entry) points.now contours.now shapes.now)
        bytes.old result bytes.new }
{
    let mut behind = pen;
    for [from, to] in shapes {
        behind = put_shape(points, contours, widths, *from, *to, bytes, behind);
    }
    behind
}

// The file of a set, in the second edition where the widths of its contours are given, else in the first.
pub fn put_file(
    points: &[i32],
    contours: &[[usize; 2]],
    shapes: &[[usize; 2]],
    widths: Option<&[u8]>,
    bytes: &mut [u8],
) -> usize
    requires { Ripe (is_some widths) points.now contours.now shapes.now bytes.old
        × IfSome widths (λ w. Widths points.now contours.now (length contours.now) w.now) }
    ensures { (bytes.new
        ≡ front (file_with (is_some widths.entry) points.now contours.now shapes.now)
        bytes.old)
        × (result ≡ length (file_with (is_some widths.entry) points.now contours.now shapes.now)) }
{
    let edition = head::number(widths.is_some()) as usize;
    let behind = put_pair(edition * 4_096 + contours.len(), bytes, 0);
    let pen = Pen {
        at: behind,
        kept: 0,
        width: 0,
    };
    let done = put_shapes(points, contours, shapes, widths, bytes, pen);
    pens::lift(bytes, done)
}
