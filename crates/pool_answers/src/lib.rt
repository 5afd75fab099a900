// What the library answers to a case of a history of two presses that share a pool.
#![tactic(auto)]

mod calls;
mod reads;

use cases::answer::Answer;
use cases::case::HEAD;
use cases::given::Set;
use cases::room::{LONG, LONG_NUMBERS};
use cases::{answer, room};

// Calls in rows of given lengths, full of canaries behind the records that are given. Each of these is two pairs of the
// case's contours, and the calls stand as its shapes.
pub fn lent(head: [usize; HEAD], set: Set<'_>) -> Answer {
    let mut points = [-7i32; LONG_NUMBERS];
    let mut row = [[7usize; 4]; LONG];
    put(set.contours, &mut row);
    let points = room::front_mut(&mut points, head[0]);
    let records = room::front_mut(&mut row, head[1]);
    after_calls(head[2], set, points, records)
}

// Puts the records in front of the row, each of two pairs.
fn put(given: &[[usize; 2]], row: &mut [[usize; 4]]) {
    for (record, [one, two]) in row.iter_mut().zip(given.as_chunks::<2>().0) {
        *record = [one[0], one[1], two[0], two[1]];
    }
}

// The calls, and what is told and left.
fn after_calls(
    start: usize,
    set: Set<'_>,
    points: &mut [i32],
    records: &mut [[usize; 4]],
) -> Answer {
    let mut contours = start;
    let told = calls::make(set.points, set.shapes, points, records, &mut contours);
    let answer = told
        .columns(answer::begin())
        .amount(contours)
        .sum(points)
        .sum(records);
    reads::with_both(answer, points, records, contours)
}
