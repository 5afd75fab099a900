// The four differences of two points more, as one number: each point is one number first, so that two are subtracted and not four.
ghost use Rattle.std.specs.Prelude.{◌≡◌, true, ◌+◌, ◌-◌, ◌*◌, ◌^◌, ◌<◌, length, drop, pos, ◌+ℤ◌, ◌-ℤ◌};
ghost use Rattle.integers.specs.Bound.{In};
ghost use Rattle.bits.specs.Signs.{all_fit};
ghost use Rattle.grid.specs.Limits.{limit, all_on_grid};
ghost use Rattle.steps.specs.Steps.{differences};
ghost use Rattle.steps.specs.inside.Asked.{Narrow, Rising, joined as joined_of, point_bits};

// How much heavier the first coordinate of a point is than its second.
pub fn scale(width: usize) -> i64
    requires { Narrow width }
    ensures { result ≡ pos (2 ^ width) }
{
    1 << width
}

// A point as one number.
pub fn joined(contour: &[i32], k: usize, scale: i64) -> i64
    requires { (k + 1 < length contour.now)
        × (all_on_grid limit contour.now ≡ true)
        × In 32768 scale }
    ensures { result ≡ joined_of scale contour.now k }
{
    i64::from(contour[k]) * scale + i64::from(contour[k + 1])
}

// Half of the values of a width, for both differences of a point.
fn halves(width: usize) -> u64
    requires { Narrow width }
    ensures { result ≡ 2 ^ (width - 1) * 2 ^ width + 2 ^ (width - 1) }
{
    let half: u64 = 1 << (width - 1);
    (half << width) + half
}

// The differences of two points, each raised by half of the values, so that none is below zero.
fn raised(from: i64, to: i64, halves: u64) -> u64
    requires { Rising from to halves }
    ensures { pos result ≡ (to -ℤ from) +ℤ pos halves }
{
    (to - from + halves as i64) as u64
}

// The bits of the four differences behind a point, and the last point as one number.
#[derive(Clone, Copy)]
pub struct Pair {
    pub bits: u64,
    pub last: i64,
}

// Raised by half of the values, a number has the bits that it has in two's complement, but for the first, which is turned.
pub fn four(contour: &[i32], k: usize, width: usize, from: i64) -> Pair
    requires { (k + 5 < length contour.now)
        × (all_on_grid limit contour.now ≡ true)
        × Narrow width
        × (all_fit width (differences (drop k contour.now)) ≡ true)
        × (from ≡ joined_of (pos (2 ^ width)) contour.now k) }
    ensures { (result.bits
        ≡ point_bits width contour.now k * 2 ^ (2 * width)
        + point_bits width contour.now (k + 2))
        × (result.last ≡ joined_of (pos (2 ^ width)) contour.now (k + 4)) }
{
    let scale = scale(width);
    let halves = halves(width);
    let between = joined(contour, k + 2, scale);
    let last = joined(contour, k + 4, scale);
    let first = raised(from, between, halves);
    let second = raised(between, last, halves);
    let turned = (halves << (2 * width)) + halves;
    Pair {
        bits: ((first << (2 * width)) + second) ^ turned,
        last,
    }
}
