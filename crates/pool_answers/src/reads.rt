// What is read of a pool after a history.
use answers::{column, parts};
use cases::answer::Answer;

// How many contours are read by number from the front.
const FIRST: usize = 16;

// What each press reads, and the free count.
pub fn with_both(
    before: Answer,
    points: &[i32],
    records: &[[usize; 4]],
    contours: usize,
) -> Answer {
    let first = with_press(before, points, records, contours, false);
    let second = with_press(first, points, records, contours, true);
    second.with(column::counted(pool::free(points, records, contours)))
}

// How many contours a press has, how many points it holds, and its contours by number.
fn with_press(
    before: Answer,
    points: &[i32],
    records: &[[usize; 4]],
    contours: usize,
    second: bool,
) -> Answer {
    let own = pool::contours_count(points, records, contours, second);
    let held = pool::held(points, records, contours, second);
    before
        .with(column::counted(own))
        .with(column::counted(held))
        .word(by_number(points, records, contours, second, own.unwrap_or(0)))
}

// The first contours of a press, the last and the one past the end, in one checksum.
fn by_number(
    points: &[i32],
    records: &[[usize; 4]],
    contours: usize,
    second: bool,
    count: usize,
) -> u32 {
    (0..count.min(FIRST))
        .chain([count.saturating_sub(1), count])
        .fold(0, |sum, k| {
            parts::with_part(sum, pool::contour_of(points, records, contours, second, k))
        })
}
