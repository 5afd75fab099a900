// The table of a listing.
ghost use Rattle.std.specs.Prelude.{◌++◌, ◌≤◌, length};
ghost use Rattle.report.specs.Text.{heading};
ghost use Rattle.report.specs.Listing.{lines as lines_of, rule_of, job};
ghost use Rattle.report.specs.inside.Lines.{Put, Listable};

use crate::inner::{lines, text};
use crate::{NUMBERS, POINTS};

// Puts the heading, and a line for each of a file's n contours.
pub fn put(second: bool, bytes: &[u8], n: usize, text: &mut [u8]) -> usize
    requires listable { Listable second bytes.now n }
    requires bytes_in_bounds { length (heading ++ lines_of (rule_of second) 1 (job bytes.now)) ≤ length text.old }
    ensures { Put 0 (heading ++ lines_of (rule_of second) 1 (job bytes.now))
        text.old result text.new }
{
    let mut points = [0i32; NUMBERS];
    let mut next = [0u32; POINTS];
    let mut prev = [0u32; POINTS];
    let mut mark = [0u8; POINTS];
    let behind = text::put(text, 0, b"contour before after decisions area2\n");
    lines::put(
        second,
        bytes,
        n,
        &mut points,
        &mut next,
        &mut prev,
        &mut mark,
        text,
        behind,
    )
}
