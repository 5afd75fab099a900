// A pool that two presses share, in rows of the caller's.
ghost use Rattle.std.specs.Prelude.{◌≡◌};
ghost use Rattle.pool.specs.Calls.Call.{add, remove};
ghost use Rattle.pool.specs.Rows.{lent};
ghost use Rattle.pool.specs.Outcome.{leaving, called, number, contours_count, held_count, free_count};

use buffer::Counted;

// A press adds a contour.
pub fn ukm_pool_add(
    points: &mut [i32],
    records: &mut [[usize; 4]],
    contours: &mut usize,
    second: bool,
    contour: &[i32],
) -> u32
    ensures { leaving result points.new records.new contours.new
        ≡ called (number second) (add 0 contour.now)
        (lent points.old records.old contours.old) }
{
    replies::told(pool::add(points, records, contours, second, contour))
}

// A press removes its newest contour.
pub fn ukm_pool_remove(
    points: &mut [i32],
    records: &mut [[usize; 4]],
    contours: &mut usize,
    second: bool,
) -> u32
    ensures { leaving result points.new records.new contours.new
        ≡ called (number second) remove
        (lent points.old records.old contours.old) }
{
    replies::told(pool::remove(points, records, contours, second))
}

// How many contours a press has.
pub fn ukm_pool_contours(
    points: &[i32],
    records: &[[usize; 4]],
    contours: usize,
    second: bool,
) -> Counted
    ensures { result ≡ contours_count (number second) (lent points.now records.now contours) }
{
    Counted::from(pool::contours_count(points, records, contours, second))
}

// How many points a press holds.
pub fn ukm_pool_held(
    points: &[i32],
    records: &[[usize; 4]],
    contours: usize,
    second: bool,
) -> Counted
    ensures { result ≡ held_count (number second) (lent points.now records.now contours) }
{
    Counted::from(pool::held(points, records, contours, second))
}

// The free count.
pub fn ukm_pool_free(points: &[i32], records: &[[usize; 4]], contours: usize) -> Counted
    ensures { result ≡ free_count (lent points.now records.now contours) }
{
    Counted::from(pool::free(points, records, contours))
}
