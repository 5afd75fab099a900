// The line of one contour.
ghost use Rattle.std.specs.Prelude.{◌+◌, ◌≤◌, ◌++◌, length};
ghost use Rattle.grid.specs.Domain.{count, Contour};
ghost use Rattle.clean.specs.Outcome.{as_cleaned};
ghost use Rattle.report.specs.Text.{space, line_end};
ghost use Rattle.report.specs.Listing.{area2, line, rule_of};
ghost use Rattle.report.specs.inside.Lines.{Put, cell, kept_text, figures, Cleanable};

use crate::inner::{counting, text};
use clean::Cleaning;

// Puts a number, and a space behind it. Most have one digit, which takes no call.
fn put_cell(text: &mut [u8], at: usize, n: usize) -> usize
    requires { at + length (cell n) ≤ length text.old }
    ensures { Put at (cell n) text.old result text.new }
{
    if n < 10 {
        let one = text::put_one(text, at, n as u32);
        return text::put(text, one, b" ");
    }
    let behind = text::put_number(text, at, n as u64);
    text::put(text, behind, b" ")
}

// Puts how many points are kept, or a dash where the contour has collapsed, and a space behind it.
fn put_kept(text: &mut [u8], at: usize, cleaned: Cleaning) -> usize
    requires { at + length (kept_text (as_cleaned cleaned) ++ space) ≤ length text.old }
    ensures { Put at (kept_text (as_cleaned cleaned) ++ space) text.old result text.new }
{
    match cleaned.kept {
        Some(n) => put_cell(text, at, n),
        None => text::put(text, at, b"- "),
    }
}

// Puts the doubled area, or a dash where there are no points, and the end of the line behind it.
fn put_area(text: &mut [u8], at: usize, contour: &[i32]) -> usize
    requires contour { Contour contour.now (count contour.now) }
    requires line_end_in_bounds { at + length (area2 contour.now ++ line_end) ≤ length text.old }
    ensures { Put at (area2 contour.now ++ line_end) text.old result text.new }
{
    if contour.len() / 2 == 0 {
        return text::put(text, at, b"-\n");
    }
    let area = area::inner::doubled_area(contour);
    let behind = text::put_signed(text, at, area);
    text::put(text, behind, b"\n")
}

// Puts the line of contour number `k`, by what was answered of its cleaning.
fn put_figures(text: &mut [u8], at: usize, k: usize, contour: &[i32], cleaned: Cleaning) -> usize
    requires contour { Contour contour.now (count contour.now) }
    requires cleaned_in_bounds { at + length (figures k contour.now (as_cleaned cleaned)) ≤ length text.old }
    ensures { Put at (figures k contour.now (as_cleaned cleaned)) text.old result text.new }
{
    let second = put_cell(text, at, k);
    let third = put_cell(text, second, contour.len() / 2);
    let fourth = put_kept(text, third, cleaned);
    let fifth = put_cell(text, fourth, cleaned.decisions);
    put_area(text, fifth, contour)
}

// Cleans contour number `k` of a file of this edition, and puts its line.
pub fn put(
    second: bool,
    contour: &[i32],
    k: usize,
    next: &mut [u32],
    prev: &mut [u32],
    mark: &mut [u8],
    text: &mut [u8],
    at: usize,
) -> usize
    requires cleanable { Cleanable contour.now next.old prev.old mark.old }
    requires contour_in_bounds { at + length (line (rule_of second) k contour.now) ≤ length text.old }
    ensures { Put at (line (rule_of second) k contour.now) text.old result text.new }
{
    let n = contour.len() / 2;
    let cleaned = counting::answer(
        second,
        contour,
        &mut next[..n],
        &mut prev[..n],
        &mut mark[..n],
    );
    put_figures(text, at, k, contour, cleaned)
}
