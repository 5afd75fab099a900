// The lines of an account.
ghost use Rattle.std.specs.Prelude.{◌+◌, ◌≤◌, length};
ghost use Rattle.report.specs.inside.Lines.{Put};
ghost use Rattle.account.specs.Words.{why, line as line_of, lines as lines_of, counts as counts_of};
ghost use Rattle.account.specs.inside.Lines.{Numbers};

use replies::Refusal;
use report::inner::text;

// Puts why a contour is dropped, by the number that the list of the salvage has.
fn put_reason(text: &mut [u8], at: usize, reason: usize) -> usize
    requires { at + length (why reason) ≤ length text.old }
    ensures { Put at (why reason) text.old result text.new }
{
    if reason == Refusal::OffGrid as usize {
        return text::put(text, at, b"off the grid");
    }
    text::put(text, at, b"no shape")
}

// Puts the line of contour number `k`, which is dropped.
fn put_line(text: &mut [u8], at: usize, k: usize, reason: usize) -> usize
    requires { at + length (line_of k reason) ≤ length text.old }
    ensures { Put at (line_of k reason) text.old result text.new }
{
    let second = text::put(text, at, b"contour ");
    let third = text::put_number(text, second, k as u64);
    let fourth = text::put(text, third, b" dropped: ");
    let fifth = put_reason(text, fourth, reason);
    text::put(text, fifth, b"\n")
}

// Puts a line for each contour of the list, which numbers them from 0.
pub fn put(list: &[[usize; 2]], text: &mut [u8]) -> usize
    requires numbers { Numbers list.now }
    requires list_in_bounds { length (lines_of list.now) ≤ length text.old }
    ensures { Put 0 (lines_of list.now) text.old result text.new }
{
    let mut behind: usize = 0;
    for &[number, reason] in list {
        behind = put_line(text, behind, number + 1, reason);
    }
    behind
}

// Puts how many contours never came, and how many bytes stand past the promised count.
pub fn put_counts(text: &mut [u8], at: usize, missing: usize, past: usize) -> usize
    requires { at + length (counts_of missing past) ≤ length text.old }
    ensures { Put at (counts_of missing past) text.old result text.new }
{
    let behind = text::put_line(text, at, b"never came: ", missing as u64);
    text::put_line(text, behind, b"bytes past the count: ", past as u64)
}
