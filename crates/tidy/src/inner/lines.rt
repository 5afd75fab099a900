// The lines of the contours that went.
ghost use Rattle.std.specs.Prelude.{◌≡◌, ◌+◌, ◌≤◌, length};
ghost use Rattle.grid.specs.Domain.{count, Contour};
ghost use Rattle.buffer.specs.Spans.{spans};
ghost use Rattle.buffer.specs.Sets.{contours};
ghost use Rattle.sets.specs.inside.Shape.{Named};
ghost use Rattle.report.specs.inside.Lines.{Put};
ghost use Rattle.tidy.specs.Words.{why, area as area_of, line as line_of, lines as lines_of};

use buffer::inner::parts;
use fates::inner::contour;
use report::inner::text;

// Puts why a contour went.
fn put_reason(text: &mut [u8], at: usize, fate: u8) -> usize
    requires { at + length (why fate) ≤ length text.old }
    ensures { Put at (why fate) text.old result text.new }
{
    if fate == contour::COLLAPSED {
        return text::put(text, at, b"collapsed");
    }
    text::put(text, at, b"behind a collapsed outline")
}

// Puts the doubled area of a contour, or that it has none.
fn put_area(text: &mut [u8], at: usize, contour: &[i32]) -> usize
    requires contour { Contour contour.now (count contour.now) }
    requires contour_in_bounds { at + length (area_of contour.now) ≤ length text.old }
    ensures { Put at (area_of contour.now) text.old result text.new }
{
    if contour.len() / 2 == 0 {
        return text::put(text, at, b", no area");
    }
    let doubled = area::inner::doubled_area(contour);
    let behind = text::put(text, at, b", doubled area ");
    text::put_signed(text, behind, doubled)
}

// Puts the line of contour number `k`; none where it is kept.
fn put_line(text: &mut [u8], at: usize, k: usize, fate: u8, contour: &[i32]) -> usize
    requires contour { Contour contour.now (count contour.now) }
    requires contour_in_bounds { at + length (line_of k fate contour.now) ≤ length text.old }
    ensures { Put at (line_of k fate contour.now) text.old result text.new }
{
    if fate == contour::KEPT {
        return at;
    }
    let second = text::put_between(text, at, b"contour ", k as u64, b" dropped: ");
    let third = put_reason(text, second, fate);
    let fourth = put_area(text, third, contour);
    text::put(text, fourth, b"\n")
}

// Puts the lines of contours that ranges name, by their fates; they are numbered from 1.
pub fn put(points: &[i32], ranges: &[[usize; 2]], fates: &[u8], text: &mut [u8]) -> usize
    requires named { Named points.now ranges.now × (length fates.now ≡ length ranges.now) }
    requires ranges_in_bounds { length (lines_of 1 fates.now (contours points.now (spans ranges.now))) ≤ length text.old }
    ensures { Put 0
        (lines_of 1 fates.now (contours points.now (spans ranges.now)))
        text.old result text.new }
{
    let mut behind: usize = 0;
    for (i, fate) in fates.iter().enumerate() {
        let own = parts::named(points, ranges, i);
        behind = put_line(text, behind, i + 1, *fate, own);
    }
    behind
}
