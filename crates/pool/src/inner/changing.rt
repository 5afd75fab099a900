// A pool that lies in rows, with one contour more or less.
ghost use Rattle.std.specs.Prelude.{◌≡◌, ℕ, ◌+◌, ◌*◌, ◌-◌, ◌<◌, ◌≤◌, length};
ghost use Rattle.pool.specs.Lists.{entry, added, removed};
ghost use Rattle.pool.specs.Rows.{lent, laid_out, contents};
ghost use Rattle.pool.specs.inside.Records.{Holds, Newest};

use crate::inner::moving;

// Writes a contour behind the others of the pool, which have `at` points and n records.
pub fn append(
    points: &mut [i32],
    records: &mut [[usize; 4]],
    n: usize,
    at: usize,
    press: usize,
    tool: usize,
    contour: &[i32],
)
    requires holds { Holds (lent points.old records.old n) at }
    requires contour_in_bounds { (2 * at + length contour.now ≤ length points.old) × (n < length records.old) }
    ensures { lent points.new records.new (n + 1)
        ≡ laid_out (added (entry press tool contour.now)
        (contents (lent points.old records.old n)))
        (lent points.old records.old n) }
{
    let end = at + contour.len() / 2;
    rows::inner::copy(contour, points, 2 * at);
    records[n] = [at, end, tool, press];
}

// Takes out contour number `newest` from 1, the newest of a press; those behind it move down over it.
pub fn take_out(
    points: &mut [i32],
    records: &mut [[usize; 4]],
    n: usize,
    total: usize,
    newest: usize,
)
    requires holds { Holds (lent points.old records.old n) total }
    requires newest_nonzero { (0 < newest) × (newest ≤ n) }
    ensures { (press : ℕ) → Newest press n records.old newest →
        lent points.new records.new (n - 1)
        ≡ laid_out (removed press (contents (lent points.old records.old n)))
        (lent points.old records.old n) }
{
    let k = newest - 1;
    let [start, end, ..] = records[k];
    moving::numbers(points, 2 * start, 2 * (end - start), 2 * (total - end));
    moving::records(records, k, end - start, n - (k + 1));
}
