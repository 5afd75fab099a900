// The lines of all contours.
ghost use Rattle.std.specs.Prelude.{◌+◌, ◌≤◌, length};
ghost use Rattle.report.specs.Listing.{lines as lines_of, rule_of, job};
ghost use Rattle.report.specs.inside.Lines.{Put, Listable, Roomy};

use crate::inner::line;
use setfile::inner::{contours, headers};

// Reads each of n contours from the file, cleans it by itself, and puts its line.
pub fn put(
    second: bool,
    bytes: &[u8],
    n: usize,
    points: &mut [i32],
    next: &mut [u32],
    prev: &mut [u32],
    mark: &mut [u8],
    text: &mut [u8],
    from: usize,
) -> usize
    requires listable { Listable second bytes.now n
        × Roomy points.old next.old prev.old mark.old }
    requires bytes_in_bounds { from + length (lines_of (rule_of second) 1 (job bytes.now)) ≤ length text.old }
    ensures { Put from (lines_of (rule_of second) 1 (job bytes.now))
        text.old result text.new }
{
    let mut behind = from;
    let mut at: usize = 16;
    for i in 0..n {
        let h = headers::header_at(second, bytes, at);
        contours::put(second, bytes, at, h, points, 0);
        let contour = &points[..2 * h.count];
        behind = line::put(second, contour, i + 1, next, prev, mark, text, behind);
        at += headers::size(second, h);
    }
    behind
}
