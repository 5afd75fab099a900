// The table of a week's figures.
ghost use Rattle.std.specs.Prelude.{◌≡◌, true, ◌+◌, ◌≤◌, length};
ghost use Rattle.replies.specs.Refusals.{number};
ghost use Rattle.buffer.specs.Sets.{joined};
ghost use Rattle.report.specs.inside.Lines.{Put};
ghost use Rattle.figures.specs.Joining.{possible};
ghost use Rattle.week.specs.Table.{told as told_of, contour_lines, unread_lines, refused_lines, sum_lines, table};

use crate::inner::wide;
use figures::Figures;
use replies::Refusal;
use report::inner::text;

// Puts a word, and how many contours or files are refused for this.
fn put_told(text: &mut [u8], at: usize, word: &[u8], totals: &[u32], refusal: Refusal) -> usize
    requires in_bounds { 22 ≤ length totals.now }
    requires text_in_bounds { at + length (told_of word.now totals.now (number refusal))
        ≤ length text.old }
    ensures { Put at (told_of word.now totals.now (number refusal))
        text.old result text.new }
{
    let reply = refusal.number() as usize;
    text::put_line(text, at, word, u64::from(totals[reply]))
}

// Puts what became of the contours.
fn put_contours(text: &mut [u8], at: usize, totals: &[u32]) -> usize
    requires in_bounds { 22 ≤ length totals.now }
    requires totals_in_bounds { at + length (joined (contour_lines totals.now)) ≤ length text.old }
    ensures { Put at (joined (contour_lines totals.now)) text.old result text.new }
{
    let second = text::put_line(text, at, b"contours kept: ", u64::from(totals[0]));
    put_told(
        text,
        second,
        b"contours collapsed: ",
        totals,
        Refusal::Collapsed,
    )
}

// Puts the files whose contours cannot be told.
fn put_unread(text: &mut [u8], at: usize, totals: &[u32]) -> usize
    requires in_bounds { 22 ≤ length totals.now }
    requires totals_in_bounds { at + length (joined (unread_lines totals.now)) ≤ length text.old }
    ensures { Put at (joined (unread_lines totals.now)) text.old result text.new }
{
    let second = put_told(
        text,
        at,
        b"files over 65,536 bytes or points (2): ",
        totals,
        Refusal::TooMany,
    );
    let third = put_told(
        text,
        second,
        b"files of another edition (9): ",
        totals,
        Refusal::Edition,
    );
    let fourth = put_told(
        text,
        third,
        b"files cut off or with bytes left over (10): ",
        totals,
        Refusal::Length,
    );
    put_told(
        text,
        fourth,
        b"files whose first contour begins no shape (11): ",
        totals,
        Refusal::NoShape,
    )
}

// Puts the files that are refused by what they carry.
fn put_refused(text: &mut [u8], at: usize, totals: &[u32]) -> usize
    requires in_bounds { 22 ≤ length totals.now }
    requires totals_in_bounds { at + length (joined (refused_lines totals.now)) ≤ length text.old }
    ensures { Put at (joined (refused_lines totals.now)) text.old result text.new }
{
    let second = put_told(
        text,
        at,
        b"files with a place off the grid (3): ",
        totals,
        Refusal::OffGrid,
    );
    let third = put_told(
        text,
        second,
        b"files over 8,192 points (5): ",
        totals,
        Refusal::Room,
    );
    let fourth = put_told(
        text,
        third,
        b"files with a width that is not the smallest (15): ",
        totals,
        Refusal::Width,
    );
    put_told(
        text,
        fourth,
        b"files with a fill bit that is set (16): ",
        totals,
        Refusal::Fill,
    )
}

// Puts the sums.
fn put_sums(text: &mut [u8], at: usize, f: Figures) -> usize
    requires f_value { possible f ≡ true }
    requires f_in_bounds { at + length (joined (sum_lines f)) ≤ length text.old }
    ensures { Put at (joined (sum_lines f)) text.old result text.new }
{
    let second = text::put_line(text, at, b"points before: ", f.before);
    let third = text::put_line(text, second, b"points after: ", f.after);
    let fourth = text::put_line(text, third, b"decisions: ", f.decisions);
    wide::put_line(text, fourth, f.high, f.low)
}

// Puts the table, and answers where it ends.
pub fn put(f: Figures, text: &mut [u8]) -> usize
    requires f_value { possible f ≡ true }
    requires f_in_bounds { length (table f) ≤ length text.old }
    ensures { Put 0 (table f) text.old result text.new }
{
    let totals = f.totals;
    let second = put_contours(text, 0, &totals);
    let third = put_unread(text, second, &totals);
    let fourth = put_refused(text, third, &totals);
    put_sums(text, fourth, f)
}
