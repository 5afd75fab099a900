// An area of more than 64 bits, as text.
ghost use Rattle.std.specs.Prelude.{◌++◌, ◌+◌, ◌-◌, ◌*◌, ◌≤◌, ◌<◌, ◌^◌, length};
ghost use Rattle.integers.specs.Bound.{In};
ghost use Rattle.report.specs.Text.{dash, line_end};
ghost use Rattle.report.specs.inside.Lines.{Put};
ghost use Rattle.figures.specs.Halves.{whole};
ghost use Rattle.week.specs.Words.{area_kept};
ghost use Rattle.week.specs.Table.{long_decimal, long_signed};

use report::inner::text;

// Puts the number high * 2^32 + low: what stands before its last eight digits has at most 64 bits again.
fn put_wide(text: &mut [u8], at: usize, high: u64, low: u32) -> usize
    requires high_bound { high < 2 ^ 48 }
    requires low_in_bounds { at + length (long_decimal (high * 2 ^ 32 + low)) ≤ length text.old }
    ensures { Put at (long_decimal (high * 2 ^ 32 + low)) text.old result text.new }
{
    let rest = high % 100_000_000 * 4_294_967_296 + u64::from(low);
    let front = high / 100_000_000 * 4_294_967_296 + rest / 100_000_000;
    let last = rest % 100_000_000;
    if front == 0 {
        return text::put_number(text, at, last);
    }
    let behind = text::put_number(text, at, front);
    text::put_eight(text, behind, last as u32)
}

// Puts the number low - high * 2^32, which is below 0.
fn put_below(text: &mut [u8], at: usize, high: u64, low: u32) -> usize
    requires high_nonzero { (0 < high) × (high < 2 ^ 48) }
    requires low_in_bounds { at + length (dash ++ long_decimal (high * 2 ^ 32 - low)) ≤ length text.old }
    ensures { Put at (dash ++ long_decimal (high * 2 ^ 32 - low)) text.old result text.new }
{
    let behind = text::put(text, at, b"-");
    if low == 0 {
        return put_wide(text, behind, high, 0);
    }
    put_wide(text, behind, high - 1, low.wrapping_neg())
}

// Puts an area.
fn put_area(text: &mut [u8], at: usize, high: i64, low: u32) -> usize
    requires fact { In 140735340871680 high }
    requires low_in_bounds { at + length (long_signed (whole high low)) ≤ length text.old }
    ensures { Put at (long_signed (whole high low)) text.old result text.new }
{
    let size = high.unsigned_abs();
    if high < 0 {
        return put_below(text, at, size, low);
    }
    put_wide(text, at, size, low)
}

// Puts the line of an area.
pub fn put_line(text: &mut [u8], at: usize, high: i64, low: u32) -> usize
    requires fact { In 140735340871680 high }
    requires line_end_in_bounds { at + length (area_kept ++ long_signed (whole high low) ++ line_end) ≤ length text.old }
    ensures { Put at (area_kept ++ long_signed (whole high low) ++ line_end)
        text.old result text.new }
{
    let second = text::put(text, at, b"doubled area kept: ");
    let third = put_area(text, second, high, low);
    text::put(text, third, b"\n")
}
