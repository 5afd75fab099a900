// One set behind another in lent rows: the coordinates, and the ranges, which are set off.
ghost use Rattle.std.specs.Prelude.{◌≡◌, ◌++◌, map, ◌+◌, ◌≤◌, length};
ghost use Rattle.buffer.specs.Spans.{spans, rows, moved};
ghost use Rattle.buffer.specs.inside.Ranges.{Movable};
ghost use Rattle.rows.specs.Rows.{front, placed};

use rows::inner::copy;

// Writes the ranges, each set off by `shift`, from position `at` on.
pub fn records(from: &[[usize; 2]], out: &mut [[usize; 2]], at: usize, shift: usize)
    requires { (at + length from.now ≤ length out.old) × Movable from.now shift }
    ensures { out.new
        ≡ placed at (rows (map (moved shift) (spans from.now))) out.old }
{
    let part = &mut out[at..at + from.len()];
    for (i, range) in from.iter().enumerate() {
        part[i] = [range[0] + shift, range[1] + shift];
    }
}

// Writes the numbers of one row, and behind them those of another.
pub fn both_numbers(one: &[i32], two: &[i32], out: &mut [i32])
    requires { length one.now + length two.now ≤ length out.old }
    ensures { out.new ≡ front (one.now ++ two.now) out.old }
{
    copy(one, out, 0);
    copy(two, out, one.len());
}

// Writes the ranges of one row, and behind them those of another, each set off by `shift`.
pub fn both_records(one: &[[usize; 2]], two: &[[usize; 2]], shift: usize, out: &mut [[usize; 2]])
    requires { (length one.now + length two.now ≤ length out.old)
        × Movable one.now 0
        × Movable two.now shift }
    ensures { out.new
        ≡ front (rows (spans one.now ++ map (moved shift) (spans two.now)))
        out.old }
{
    records(one, out, 0, 0);
    records(two, out, one.len(), shift);
}
