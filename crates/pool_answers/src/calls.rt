// The calls of a history, one after the other. A call is two pairs: 0 to add or else to remove, and the press; and of the
// numbers the start and the end of the contour that is added.
use answers::told;
use answers::told::Told;
use cases::room;

pub fn make(
    numbers: &[i32],
    steps: &[[usize; 2]],
    points: &mut [i32],
    records: &mut [[usize; 4]],
    contours: &mut usize,
) -> Told {
    let mut told = told::begin();
    for [who, which] in steps.as_chunks::<2>().0 {
        let second = who[1] != 0;
        let answer = if who[0] != 0 {
            pool::remove(points, records, contours, second)
        } else {
            pool::add(
                points,
                records,
                contours,
                second,
                room::part(numbers, *which),
            )
        };
        told = told.with(answer);
    }
    told
}
