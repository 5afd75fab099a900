// Kinds and floats, written to their rows.
ghost use Rattle.std.specs.Prelude.{◌≡◌, map, ◌+◌, ◌*◌, ◌%◌, ◌≤◌, length, take, drop, replicate};
ghost use Rattle.rows.specs.Rows.{front, placed};
ghost use Rattle.buffer.specs.Spans.{spans};
ghost use Rattle.millimetres.specs.Scale.{millimetres};
ghost use Rattle.drawing.specs.inside.Rows.{contour_kinds, set_kinds, Forward, filled as filled_of};

use crate::command;

// Writes the places of n points from number `from` on.
fn some_places(points: &[i32], from: usize, n: usize, floats: &mut [f64])
    requires { (2 * (from + n) ≤ length points.now) × (2 * (from + n) ≤ length floats.old) }
    ensures { floats.new
        ≡ placed (2 * from) (map millimetres (take (2 * n) (drop (2 * from) points.now)))
        floats.old }
{
    for i in 0..n {
        let p = command::place_of(grid::inner::point_at(points, from + i));
        let at = 2 * (from + i);
        floats[at] = p.x;
        floats[at + 1] = p.y;
    }
}

// Writes the places of all points, sixteen at a time, which LLVM lays out one behind the other.
pub fn places(points: &[i32], floats: &mut [f64])
    requires { (length points.now % 2 ≡ 0) × (length points.now ≤ length floats.old) }
    ensures { floats.new
        ≡ front (map millimetres points.now) floats.old }
{
    let n = points.len() / 2;
    for k in 0..n / 16 {
        some_places(points, 16 * k, 16, floats);
    }
    some_places(points, 16 * (n / 16), n % 16, floats);
}

// How many of the contours have points.
pub fn filled(ranges: &[[usize; 2]]) -> usize
    ensures { result ≡ filled_of (spans ranges.now) }
{
    ranges.iter().map(|r| usize::from(r[0] < r[1])).sum()
}

// Writes n Lines from `at` on. Most contours have few, for which this takes less than `fill`.
fn lines(kinds: &mut [u8], at: usize, n: usize)
    requires { at + n ≤ length kinds.old }
    ensures { kinds.new ≡ placed at (replicate n 1) kinds.old }
{
    for i in 0..n {
        kinds[at + i] = command::LINE;
    }
}

// Writes the kinds of a contour of n points from `at` on, and answers the place behind them.
fn contour(kinds: &mut [u8], at: usize, n: usize) -> usize
    requires { at + length (contour_kinds n) ≤ length kinds.old }
    ensures { (result ≡ at + length (contour_kinds n))
        × (kinds.new ≡ placed at (contour_kinds n) kinds.old) }
{
    if n == 0 {
        return at;
    }
    kinds[at] = command::MOVE;
    lines(kinds, at + 1, n - 1);
    kinds[at + n] = command::CLOSE;
    at + n + 1
}

// Writes the kinds of all contours.
pub fn contours(ranges: &[[usize; 2]], kinds: &mut [u8])
    requires { Forward ranges.now × (length (set_kinds (spans ranges.now)) ≤ length kinds.old) }
    ensures { kinds.new
        ≡ front (set_kinds (spans ranges.now)) kinds.old }
{
    let mut at = 0;
    for r in ranges {
        at = contour(kinds, at, r[1] - r[0]);
    }
}
