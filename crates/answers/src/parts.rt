// The parts that a set hands out, all in one checksum: of each its length and the checksum of its numbers.
use cases::checksum;
use cases::checksum::Summed;
use cases::given::Set;

// The checksum with one part more.
pub fn with_part(sum: u32, part: &[i32]) -> u32 {
    let length = part.len().added_to(sum);
    checksum::added(length, checksum::of(part))
}

// The contours of a contour set by number, and the one past the end.
pub fn of_contours(points: &[i32], contours: &[[usize; 2]]) -> u32 {
    (0..=contours.len()).fold(0, |sum, k| {
        with_part(sum, buffer::contours::contour(points, contours, k))
    })
}

// The shapes of a shape set by number, and the one past the end.
pub fn of_shapes(set: Set<'_>) -> u32 {
    (0..=set.shapes.len()).fold(0, |sum, s| with_shape(sum, set, s))
}

// The checksum with shape number s: how many contours it has, each of them, and the one past the end.
fn with_shape(start: u32, set: Set<'_>, s: usize) -> u32 {
    let Set {
        points,
        contours,
        shapes,
    } = set;
    let count = buffer::shapes::contours_in(points, contours, shapes, s).unwrap_or(0);
    (0..=count).fold(count.added_to(start), |sum, c| {
        let part = buffer::shapes::contour_of(points, contours, shapes, s, c);
        with_part(sum, part)
    })
}
