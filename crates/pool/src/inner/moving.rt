// Elements of a row that move down over others.
ghost use Rattle.std.specs.Prelude.{◌≡◌, map, ◌+◌, ◌≤◌, length, take, drop};
ghost use Rattle.rows.specs.Rows.{placed};
ghost use Rattle.pool.specs.inside.Records.{lowered, Lowerable};

// Moves n numbers down by `gap`, to position `at`.
pub fn numbers(row: &mut [i32], at: usize, gap: usize, n: usize)
    requires { at + gap + n ≤ length row.old }
    ensures { row.new ≡ placed at (take n (drop (at + gap) row.old)) row.old }
{
    for i in 0..n {
        row[at + i] = row[at + gap + i];
    }
}

// Moves n records down by one, to position `at`; their contours move down by d points.
pub fn records(row: &mut [[usize; 4]], at: usize, d: usize, n: usize)
    requires { Lowerable row.old at d n }
    ensures { row.new
        ≡ placed at (map (lowered d) (take n (drop (at + 1) row.old))) row.old }
{
    for i in 0..n {
        let [start, end, tool, press] = row[at + 1 + i];
        row[at + i] = [start - d, end - d, tool, press];
    }
}
