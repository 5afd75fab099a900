// A contour's points, read from its steps.
ghost use Rattle.std.specs.Prelude.{◌≡◌, true, not, ◌+◌, ◌-◌, ◌*◌, ◌^◌, ◌<◌, ◌≤◌, eqb, leb, length, take, drop, nat_abs, ◌+ℤ◌};
ghost use Rattle.bits.specs.Bits.{value, bits};
ghost use Rattle.bits.specs.Signs.{signed, fits, all_fit, numbers};
ghost use Rattle.bits.specs.Widths.{width_of};
ghost use Rattle.bits.specs.inside.Words.{Within, leading};
ghost use Rattle.grid.specs.Limits.{limit, on_grid, all_on_grid};
ghost use Rattle.rows.specs.Rows.{placed};
ghost use Rattle.steps.specs.Steps.{sums};
ghost use Rattle.steps.specs.Bodies.{steps_in, points_of_width};
ghost use Rattle.steps.specs.inside.Asked.{Stands, Width, There, Following};

use bits::inner::{fields, signs};
use grid::LIMIT;
use grid::inner::bounds;

// The difference of `width` bits at bit `at`.
fn step(bytes: &[u8], at: usize, width: usize) -> i64
    requires { Within bytes.now at width × Width width × (8 ≤ length bytes.now) }
    ensures { result ≡ signed width (value (take width (drop at (bits bytes.now)))) }
{
    signs::signed(fields::long_number(bytes, at, width), width)
}

// Whether the difference of `width` bits at bit `at` does not fit one bit less.
fn needs(bytes: &[u8], at: usize, width: usize) -> bool
    requires { Within bytes.now at width
        × Width width
        × (8 ≤ length bytes.now)
        × (1 < width) }
    ensures { result
        ≡ not (fits (width - 1) (signed width (value (take width (drop at (bits bytes.now)))))) }
{
    1 << (width - 2) <= signs::reach(step(bytes, at, width))
}

// Whether one of k differences, from bit `at` on, does not.
fn some_needs(bytes: &[u8], at: usize, width: usize, k: usize) -> bool
    requires { There bytes.now at width k × (1 < width) }
    ensures { result ≡ not (all_fit (width - 1) (numbers width k (drop at (bits bytes.now)))) }
{
    (0..k).any(|i| needs(bytes, at + width * i, width))
}

// Whether the width that is written of n points, which stand from bit `at` on, is the smallest.
pub fn smallest(bytes: &[u8], at: usize, width: usize, n: usize) -> bool
    requires { Stands bytes.now at width n × (width ≤ 63) }
    ensures { result ≡ eqb width (width_of (steps_in n width (drop at (bits bytes.now)))) }
{
    if n < 2 {
        return width == 1;
    }
    if (width == 0) | (32 < width) {
        return false;
    }
    if width == 1 {
        return true;
    }
    some_needs(bytes, at + 64, width, 2 * (n - 1))
}

// The number that a difference of `width` bits at bit `at` makes of x.
fn next(bytes: &[u8], at: usize, width: usize, x: i32) -> i64
    requires { Within bytes.now at width × Width width × (8 ≤ length bytes.now) }
    ensures { result ≡ x +ℤ signed width (value (take width (drop at (bits bytes.now)))) }
{
    i64::from(x) + step(bytes, at, width)
}

// Whether the numbers that follow x and y by k differences, from bit `at` on, are on the grid.
fn sums_on(bytes: &[u8], at: usize, width: usize, k: usize, x: i32, y: i32) -> bool
    requires { There bytes.now at width k }
    ensures { result ≡ all_on_grid limit (sums x y (numbers width k (drop at (bits bytes.now)))) }
{
    let mut a = x;
    let mut b = y;
    for i in 0..k {
        let u = next(bytes, at + width * i, width, a);
        if u64::from(LIMIT) < u.unsigned_abs() {
            return false;
        }
        a = b;
        b = u as i32;
    }
    true
}

// The coordinate in the 32 bits at bit `at`.
fn coordinate(bytes: &[u8], at: usize) -> i32
    requires { Within bytes.now at 32 × (8 ≤ length bytes.now) }
    ensures { result ≡ signed 32 (value (take 32 (drop at (bits bytes.now)))) }
{
    step(bytes, at, 32) as i32
}

// Whether a number stays on the grid for k differences of a width, whatever they are.
fn stays(x: i32, width: usize, k: usize) -> bool
    requires { Width width × (k ≤ 32767) }
    ensures { result ≡ leb (nat_abs x + k * 2 ^ (width - 1)) limit }
{
    let half: u64 = 1 << (width - 1);
    u64::from(x.unsigned_abs()) + (k as u64) * half <= u64::from(LIMIT)
}

// Whether n points, which stand from bit `at` on, are on the grid. So near its middle that no difference leaves it, none is read.
pub fn on_grid(bytes: &[u8], at: usize, width: usize, n: usize) -> bool
    requires { Stands bytes.now at width n × Width width }
    ensures { result ≡ all_on_grid limit (points_of_width n width (drop at (bits bytes.now))) }
{
    if n == 0 {
        return true;
    }
    let x = coordinate(bytes, at);
    let y = coordinate(bytes, at + 32);
    if stays(x, width, n - 1) & stays(y, width, n - 1) {
        return true;
    }
    if bounds::on_grid(LIMIT, x) & bounds::on_grid(LIMIT, y) {
        return sums_on(bytes, at + 64, width, 2 * (n - 1), x, y);
    }
    false
}

// Writes the numbers that follow x and y by k differences, from bit `at` on, from position `to` on.
fn write_sums(
    bytes: &[u8],
    at: usize,
    width: usize,
    k: usize,
    x: i32,
    y: i32,
    out: &mut [i32],
    to: usize,
)
    requires { There bytes.now at width k
        × (all_on_grid limit (sums x y (numbers width k (drop at (bits bytes.now)))) ≡ true)
        × (to + k ≤ length out.old) }
    ensures { out.new
        ≡ placed to (sums x y (numbers width k (drop at (bits bytes.now)))) out.old }
{
    let mut a = x;
    let mut b = y;
    for i in 0..k {
        let u = next(bytes, at + width * i, width, a) as i32;
        out[to + i] = u;
        a = b;
        b = u;
    }
}

// The number that the difference in the first `width` bits of a word makes of x.
fn moved(word: u64, width: usize, x: i32) -> i32
    requires { Width width × (on_grid limit (x +ℤ signed width (leading word width)) ≡ true) }
    ensures { result ≡ x +ℤ signed width (leading word width) }
{
    (i64::from(x) + signs::signed(word >> (64 - width), width)) as i32
}

// Writes the n points that follow x and y, from bit `at` on, from position `to` on: both differences of a point are read at once.
fn write_points(
    bytes: &[u8],
    at: usize,
    width: usize,
    n: usize,
    x: i32,
    y: i32,
    out: &mut [i32],
    to: usize,
)
    requires { Following bytes.now at width n x y out.old to × (width ≤ 28) }
    ensures { out.new
        ≡ placed to (sums x y (numbers width (2 * n) (drop at (bits bytes.now)))) out.old }
{
    let mut a = x;
    let mut b = y;
    for i in 0..n {
        let first = fields::ahead(bytes, at + width * (2 * i), 2 * width);
        let second = first << width;
        a = moved(first, width, a);
        b = moved(second, width, b);
        out[to + 2 * i] = a;
        out[to + (2 * i + 1)] = b;
    }
}

// Writes them in any width: two differences of more than 28 bits do not lie within eight bytes.
fn write_following(
    bytes: &[u8],
    at: usize,
    width: usize,
    n: usize,
    x: i32,
    y: i32,
    out: &mut [i32],
    to: usize,
)
    requires { Following bytes.now at width n x y out.old to }
    ensures { out.new
        ≡ placed to (sums x y (numbers width (2 * n) (drop at (bits bytes.now)))) out.old }
{
    if width <= 28 {
        write_points(bytes, at, width, n, x, y, out, to);
        return;
    }
    write_sums(bytes, at, width, 2 * n, x, y, out, to);
}

// Writes n points of the grid, which stand from bit `at` on, from position `to` on.
pub fn points(bytes: &[u8], at: usize, width: usize, n: usize, out: &mut [i32], to: usize)
    requires { Stands bytes.now at width n
        × Width width
        × (all_on_grid limit (points_of_width n width (drop at (bits bytes.now))) ≡ true)
        × (to + 2 * n ≤ length out.old) }
    ensures { out.new
        ≡ placed to (points_of_width n width (drop at (bits bytes.now))) out.old }
{
    if n == 0 {
        return;
    }
    let x = coordinate(bytes, at);
    let y = coordinate(bytes, at + 32);
    out[to] = x;
    out[to + 1] = y;
    write_following(bytes, at + 64, width, n - 1, x, y, out, to + 2);
}
