// The lines of what changed.
ghost use Rattle.std.specs.Prelude.{◌+◌, ◌≤◌, length};
ghost use Rattle.report.specs.inside.Lines.{Put};
ghost use Rattle.changes.specs.Words.{change, line as line_of, lines as lines_of};
ghost use Rattle.changes.specs.inside.Lines.{Places};

use difference::kind;
use report::inner::text;

// Puts what became of a contour that is not the same.
fn put_change(text: &mut [u8], at: usize, kind: usize, place: usize) -> usize
    requires { (place ≤ 65536) × (at + length (change kind place) ≤ length text.old) }
    ensures { Put at (change kind place) text.old result text.new }
{
    let point = place + 1;
    if kind == kind::ELSEWHERE {
        let word = b" starts elsewhere: its first point is point ";
        return text::put_between(text, at, word, point as u64, b" of the second");
    }
    if kind == kind::DIFFERENT {
        return text::put_between(text, at, b" differs from point ", point as u64, b" on");
    }
    if kind == kind::ONLY_FIRST {
        return text::put(text, at, b" is only in the first");
    }
    text::put(text, at, b" is only in the second")
}

// Puts the line of contour number `k`; none where it is the same.
fn put_line(text: &mut [u8], at: usize, k: usize, kind: usize, place: usize) -> usize
    requires { (place ≤ 65536) × (at + length (line_of k kind place) ≤ length text.old) }
    ensures { Put at (line_of k kind place) text.old result text.new }
{
    if kind == kind::SAME {
        return at;
    }
    let second = text::put(text, at, b"contour ");
    let third = text::put_number(text, second, k as u64);
    let fourth = put_change(text, third, kind, place);
    text::put(text, fourth, b"\n")
}

// Puts the lines of a listing, whose contours are numbered from 1.
pub fn put(listing: &[[usize; 2]], text: &mut [u8]) -> usize
    requires places { Places listing.now }
    requires listing_in_bounds { length (lines_of 1 listing.now) ≤ length text.old }
    ensures { Put 0 (lines_of 1 listing.now) text.old result text.new }
{
    let mut behind: usize = 0;
    for (i, &[kind, place]) in listing.iter().enumerate() {
        behind = put_line(text, behind, i + 1, kind, place);
    }
    behind
}
