// The lines of a job's contours.
ghost use Rattle.std.specs.Prelude.{◌+◌, ◌≤◌, length};
ghost use Rattle.report.specs.inside.Lines.{Put};
ghost use Rattle.setfile.specs.Entries.{entry};
ghost use Rattle.setfile.specs.inside.Reading.{contained};
ghost use Rattle.jobtext.specs.Text.{word as word_of, spaced, numbers as numbers_of, line as line_of, lines as lines_of};
ghost use Rattle.jobtext.specs.inside.Rows.{Dumpable};

use report::inner::text;
use setfile::inner::{contours, headers};

// Puts whether a contour begins a shape.
fn put_word(text: &mut [u8], at: usize, begins: bool) -> usize
    requires { at + length (word_of begins) ≤ length text.old }
    ensures { Put at (word_of begins) text.old result text.new }
{
    if begins {
        return text::put(text, at, b"shape");
    }
    text::put(text, at, b"hole")
}

// Puts a number behind a space.
fn put_spaced(text: &mut [u8], at: usize, z: i32) -> usize
    requires { at + length (spaced z) ≤ length text.old }
    ensures { Put at (spaced z) text.old result text.new }
{
    let behind = text::put(text, at, b" ");
    text::put_signed(text, behind, i64::from(z))
}

// Puts the numbers of a contour.
fn put_numbers(text: &mut [u8], at: usize, contour: &[i32]) -> usize
    requires { at + length (numbers_of contour.now) ≤ length text.old }
    ensures { Put at (numbers_of contour.now) text.old result text.new }
{
    let mut behind = at;
    for z in contour {
        behind = put_spaced(text, behind, *z);
    }
    behind
}

// Puts the line of a contour.
fn put_line(text: &mut [u8], at: usize, begins: bool, contour: &[i32]) -> usize
    requires { at + length (line_of (entry begins contour.now)) ≤ length text.old }
    ensures { Put at (line_of (entry begins contour.now)) text.old result text.new }
{
    let second = put_word(text, at, begins);
    let third = put_numbers(text, second, contour);
    text::put(text, third, b"\n")
}

// Reads each of n contours from the file, and puts its line.
pub fn put(
    second: bool,
    bytes: &[u8],
    n: usize,
    points: &mut [i32],
    text: &mut [u8],
    from: usize,
) -> usize
    requires dumpable { Dumpable second bytes.now n points.old }
    requires bytes_in_bounds { from + length (lines_of (contained bytes.now)) ≤ length text.old }
    ensures { Put from (lines_of (contained bytes.now)) text.old result text.new }
{
    let mut behind = from;
    let mut at: usize = 16;
    for _ in 0..n {
        let h = headers::header_at(second, bytes, at);
        contours::put(second, bytes, at, h, points, 0);
        behind = put_line(text, behind, h.begins, &points[..2 * h.count]);
        at += headers::size(second, h);
    }
    behind
}
