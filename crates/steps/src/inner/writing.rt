// A contour's points, written by their steps.
ghost use Rattle.std.specs.Prelude.{◌≡◌, true, ◌+◌, ◌*◌, ◌^◌, ◌<◌, ◌≤◌, length, take};
ghost use Rattle.std.specs.Int.Signed.{mag};
ghost use Rattle.bits.specs.Bits.{field};
ghost use Rattle.bits.specs.Signs.{unsigned as unsigned_of, fits, fields};
ghost use Rattle.bits.specs.Widths.{width_for};
ghost use Rattle.bits.specs.inside.Pens.{reached, Ready, Wrote};
ghost use Rattle.grid.specs.Limits.{limit, all_on_grid};
ghost use Rattle.grid.specs.Domain.{count};
ghost use Rattle.steps.specs.Steps.{differences};
ghost use Rattle.steps.specs.Bodies.{contour_width, body};
ghost use Rattle.steps.specs.inside.Asked.{step, Width, Fitting, Writable};

use crate::inner::pairs;
use bits::inner::pens::Pen;
use bits::inner::{broad, pens, signs, widths};

// The difference at position k of a contour: two coordinates of the grid are close enough for an i32.
fn difference(contour: &[i32], k: usize) -> i32
    requires { (k + 2 < length contour.now) × (all_on_grid limit contour.now ≡ true) }
    ensures { result ≡ step contour.now k }
{
    contour[k + 2] - contour[k]
}

// How far the difference at position k reaches.
fn reach(contour: &[i32], k: usize) -> u32
    requires { (k + 2 < length contour.now) × (all_on_grid limit contour.now ≡ true) }
    ensures { result ≡ mag (step contour.now k) }
{
    signs::reach(i64::from(difference(contour, k))) as u32
}

// A number that reaches to the same bit as the farthest difference: all that they reach, or-ed. LLVM takes four of them in a step.
fn reaches(contour: &[i32]) -> u32
    requires { all_on_grid limit contour.now ≡ true }
    ensures { (result < 2 ^ 31) × (width_for result ≡ contour_width contour.now) }
{
    let mut all = 0;
    for k in 0..contour.len().saturating_sub(2) {
        all |= reach(contour, k);
    }
    all
}

// The smallest width that the differences of a contour of the grid fit.
pub fn width(contour: &[i32]) -> usize
    requires { (length contour.now ≡ 2 * count contour.now)
        × (all_on_grid limit contour.now ≡ true) }
    ensures { result ≡ contour_width contour.now }
{
    widths::width_for(u64::from(reaches(contour)))
}

// Writes a coordinate in 32 bits behind the pen.
fn put_whole(bytes: &mut [u8], pen: Pen, x: i32) -> Pen
    requires { Ready pen × (reached pen + 32 ≤ 8 * length bytes.old) }
    ensures { Wrote pen (field 32 (unsigned_of 32 x)) bytes.old result bytes.new
        × (result.width < 32) }
{
    pens::write(bytes, pen, 32, u64::from(x.cast_unsigned()))
}

// Writes a contour's first point behind the pen.
fn put_first(bytes: &mut [u8], pen: Pen, contour: &[i32]) -> Pen
    requires { Ready pen
        × (2 ≤ length contour.now)
        × (reached pen + 64 ≤ 8 * length bytes.old) }
    ensures { Wrote pen (fields 32 (take 2 contour.now)) bytes.old result
        bytes.new
        × (result.width < 32) }
{
    let between = put_whole(bytes, pen, contour[0]);
    put_whole(bytes, between, contour[1])
}

// The bits of the difference at position k, in a width that it fits.
fn step_bits(contour: &[i32], k: usize, width: usize) -> u64
    requires { (k + 2 < length contour.now)
        × (all_on_grid limit contour.now ≡ true)
        × Width width
        × (fits width (step contour.now k) ≡ true) }
    ensures { result ≡ unsigned_of width (step contour.now k) }
{
    u64::from(difference(contour, k).cast_unsigned()) % (1 << width)
}

// Writes its differences behind the pen.
fn put_steps(bytes: &mut [u8], pen: Pen, contour: &[i32], width: usize) -> Pen
    requires { Fitting bytes.old pen contour.now width }
    ensures { Wrote pen (fields width (differences contour.now)) bytes.old result
        bytes.new
        × (result.width < 32) }
{
    let mut p = pen;
    for k in 0..contour.len().saturating_sub(2) {
        let n = step_bits(contour, k, width);
        p = pens::write(bytes, p, width, n);
    }
    p
}

// Writes them in a width of which four make a field: those of two points at once, and then of the last.
fn put_pairs(bytes: &mut [u8], pen: Pen, contour: &[i32], width: usize) -> Pen
    requires { Fitting bytes.old pen contour.now width
        × (width ≤ 15)
        × (2 ≤ length contour.now) }
    ensures { Wrote pen (fields width (differences contour.now)) bytes.old result
        bytes.new
        × (result.width < 32) }
{
    let mut b = broad::broaden(pen);
    let mut from = pairs::joined(contour, 0, pairs::scale(width));
    let pairs = (contour.len() - 2) / 4;
    for i in 0..pairs {
        let next = pairs::four(contour, 4 * i, width, from);
        b = broad::sweep(bytes, b, 4 * width, next.bits);
        from = next.last;
    }
    let p = broad::narrow(bytes, b);
    put_steps(bytes, p, &contour[4 * pairs..], width)
}

// Writes them in any width.
fn put_following(bytes: &mut [u8], pen: Pen, contour: &[i32], width: usize) -> Pen
    requires { Fitting bytes.old pen contour.now width }
    ensures { Wrote pen (fields width (differences contour.now)) bytes.old result
        bytes.new
        × (result.width < 32) }
{
    if width <= 15 && 6 <= contour.len() {
        return put_pairs(bytes, pen, contour, width);
    }
    put_steps(bytes, pen, contour, width)
}

// Writes a contour of the grid behind the pen.
pub fn put(bytes: &mut [u8], pen: Pen, contour: &[i32], width: usize) -> Pen
    requires { Writable bytes.old pen contour.now width }
    ensures { Wrote pen (body contour.now) bytes.old result bytes.new
        × (result.width < 32) }
{
    if contour.is_empty() {
        return pen;
    }
    let first = put_first(bytes, pen, contour);
    put_following(bytes, first, contour, width)
}
