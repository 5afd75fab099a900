// The rows of a set, filled from a file that was judged: a walk over its contours for each row.
ghost use Rattle.std.specs.Prelude.{◌≡◌, ◌<◌, ◌≤◌, length};
ghost use Rattle.rows.specs.Rows.{front};
ghost use Rattle.buffer.specs.Spans.{rows};
ghost use Rattle.buffer.specs.Sets.{joined, contour_spans, shape_spans};
ghost use Rattle.setfile.specs.Entries.{contours_of, shapes_of};
ghost use Rattle.setfile.specs.inside.Reading.{contained, Readable, next_open, closed};

use crate::inner::{contours, headers};

// Writes the points of n contours.
pub fn points(second: bool, bytes: &[u8], n: usize, out: &mut [i32])
    requires { Readable second bytes.now n
        × (length (joined (contours_of (contained bytes.now))) ≤ length out.old) }
    ensures { out.new
        ≡ front (joined (contours_of (contained bytes.now))) out.old }
{
    let mut at: usize = 16;
    let mut to: usize = 0;
    for _ in 0..n {
        let h = headers::header_at(second, bytes, at);
        contours::put(second, bytes, at, h, out, to);
        at += headers::size(second, h);
        to += 2 * h.count;
    }
}

// Writes the ranges of n contours.
pub fn ranges(second: bool, bytes: &[u8], n: usize, records: &mut [[usize; 2]])
    requires { Readable second bytes.now n
        × (length (contained bytes.now) ≤ length records.old) }
    ensures { records.new
        ≡ front (rows (contour_spans (contours_of (contained bytes.now))))
        records.old }
{
    let mut at: usize = 16;
    let mut start: usize = 0;
    for i in 0..n {
        let h = headers::header_at(second, bytes, at);
        let end = start + h.count;
        records[i] = [start, end];
        start = end;
        at += headers::size(second, h);
    }
}

// The shape that is met: its number, and its first contour.
#[derive(Clone, Copy)]
struct Open {
    number: usize,
    from: usize,
}

// Where contour i begins a shape, the shape before it is written.
fn begin(begins: bool, shape: Open, i: usize, groups: &mut [[usize; 2]]) -> Open
    requires { shape.number < length groups.old }
    ensures { (result ≡ next_open begins shape i)
        × (groups.new ≡ closed begins shape i groups.old) }
{
    if begins {
        let k = shape.number;
        groups[k] = [shape.from, i];
        return Open {
            number: k + 1,
            from: i,
        };
    }
    shape
}

// Writes the ranges of the shapes of n contours, the first of which begins one.
fn begun_shapes(second: bool, bytes: &[u8], n: usize, groups: &mut [[usize; 2]])
    requires { Readable second bytes.now n
        × (0 < n)
        × (length (shapes_of (contained bytes.now)) ≤ length groups.old) }
    ensures { groups.new
        ≡ front (rows (shape_spans (shapes_of (contained bytes.now))))
        groups.old }
{
    let first = headers::header_at(second, bytes, 16);
    let mut at: usize = 16 + headers::size(second, first);
    let mut shape = Open { number: 0, from: 0 };
    for i in 1..n {
        let h = headers::header_at(second, bytes, at);
        shape = begin(h.begins, shape, i, groups);
        at += headers::size(second, h);
    }
    let k = shape.number;
    groups[k] = [shape.from, n];
}

// Writes the ranges of the shapes of n contours.
pub fn shapes(second: bool, bytes: &[u8], n: usize, groups: &mut [[usize; 2]])
    requires { Readable second bytes.now n
        × (length (shapes_of (contained bytes.now)) ≤ length groups.old) }
    ensures { groups.new
        ≡ front (rows (shape_spans (shapes_of (contained bytes.now))))
        groups.old }
{
    if 0 < n {
        begun_shapes(second, bytes, n, groups);
    }
}
