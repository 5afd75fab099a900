// Two files, read and compared.
ghost use Rattle.std.specs.Prelude.{◌≡◌, ◌++◌, ◌≤◌, length};
ghost use Rattle.rows.specs.Rows.{front};
ghost use Rattle.difference.specs.Lines.{lines_of, written};
ghost use Rattle.replies.specs.Refusals.{number};
ghost use Rattle.report.specs.Text.{decimal, line_end};
ghost use Rattle.report.specs.inside.Lines.{Put};
ghost use Rattle.changes.specs.Words.{said, changes};
ghost use Rattle.changes.specs.inside.Lines.{Comparable};

use crate::inner::{counts, lines};
use crate::{CONTOURS, NUMBERS};
use difference::inner::listing;
use replies::Refusal;
use report::inner::text;

// Puts what is said of two sets: a line for each contour that is not the same, and the counts.
fn put_said(
    points: &[i32],
    ranges: &[[usize; 2]],
    others: &[i32],
    other_ranges: &[[usize; 2]],
    text: &mut [u8],
) -> usize
    requires comparable { Comparable points.now ranges.now others.now other_ranges.now }
    requires other_ranges_in_bounds { length (said (written (lines_of points.now ranges.now others.now other_ranges.now)))
        ≤ length text.old }
    ensures { Put 0
        (said
        (written (lines_of points.now ranges.now others.now other_ranges.now)))
        text.old result text.new }
{
    let mut rows = [[0usize; 2]; CONTOURS];
    let n = ranges.len().max(other_ranges.len());
    listing::fill(points, ranges, others, other_ranges, n, &mut rows);
    let behind = lines::put(&rows[..n], text);
    counts::put(&rows[..n], text, behind)
}

// Puts whose file is refused, and by which number.
fn put_refused(text: &mut [u8], word: &[u8], refusal: Refusal) -> usize
    requires { length (word.now ++ decimal (number refusal) ++ line_end) ≤ length text.old }
    ensures { Put 0 (word.now ++ decimal (number refusal) ++ line_end)
        text.old result text.new }
{
    text::put_line(text, 0, word, u64::from(refusal.number()))
}

// Puts what is said of two files, and answers how long it is.
pub fn tell(first: &[u8], second: &[u8], text: &mut [u8]) -> usize
    requires { 311328 ≤ length text.old }
    ensures { (result ≡ length (changes first.now second.now))
        × (text.new ≡ front (changes first.now second.now) text.old) }
{
    let mut points = [0i32; NUMBERS];
    let mut ranges = [[0usize; 2]; CONTOURS];
    let mut others = [0i32; NUMBERS];
    let mut other_ranges = [[0usize; 2]; CONTOURS];
    let mut shapes = [[0usize; 2]; CONTOURS];
    let one = match setfile::read(first, &mut points, &mut ranges, &mut shapes) {
        Ok(carried) => carried.sizes,
        Err(refusal) => return put_refused(text, b"first: refused ", refusal),
    };
    let other = match setfile::read(second, &mut others, &mut other_ranges, &mut shapes) {
        Ok(carried) => carried.sizes,
        Err(refusal) => return put_refused(text, b"second: refused ", refusal),
    };
    put_said(
        &points[..2 * one.points],
        &ranges[..one.contours],
        &others[..2 * other.points],
        &other_ranges[..other.contours],
        text,
    )
}
