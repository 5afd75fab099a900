// The kinds of sets that are asked, packed and added to.
use crate::lent::Output;
use crate::{column, parts};
use buffer::Sizes;
use cases::answer::{Answer, Column};
use cases::case::HEAD;
use cases::given::Set;
use cases::room::{SET, SET_NUMBERS};
use cases::{answer, room};
use replies::Refusal;

// Every question about a set, as a contour set and as a shape set.
pub fn asked(set: Set<'_>) -> Answer {
    with_shapes(with_contours(answer::begin(), set), set)
}

fn with_contours(before: Answer, set: Set<'_>) -> Answer {
    let Set {
        points,
        contours,
        ..
    } = set;
    let sound = buffer::ranges::sound(contours, points.len() / 2);
    let single = buffer::contours::is_single_contour(points, contours);
    let numbers = buffer::contours::points_count(points, contours);
    let ranges = buffer::contours::contours_count(points, contours);
    let first = buffer::contours::first_contour(points, contours);
    let answer = before
        .with(Column::Verdict(sound))
        .with(column::verdict(buffer::contours::is_empty(points, contours)))
        .with(column::verdict(single))
        .with(column::counted(numbers))
        .with(column::counted(ranges));
    column::with_part(answer, first).word(parts::of_contours(points, contours))
}

fn with_shapes(before: Answer, set: Set<'_>) -> Answer {
    let Set {
        points,
        contours,
        shapes,
    } = set;
    let grouped = buffer::ranges::sound(shapes, contours.len());
    let empty = buffer::shapes::is_empty(points, contours, shapes);
    let numbers = buffer::shapes::points_count(points, contours, shapes);
    let ranges = buffer::shapes::contours_count(points, contours, shapes);
    let groups = buffer::shapes::shapes_count(points, contours, shapes);
    before
        .with(Column::Verdict(grouped))
        .with(column::verdict(empty))
        .with(column::counted(numbers))
        .with(column::counted(ranges))
        .with(column::counted(groups))
        .word(parts::of_shapes(set))
}

// A packing or an addition in rows of given lengths, full of canaries. What is added is the numbers behind the set's,
// with these ranges.
pub fn lent(head: [usize; HEAD], set: Set<'_>, ranges: &[[usize; 2]]) -> Answer {
    let mut out = [-7i32; SET_NUMBERS];
    let mut records = [[7usize; 2]; SET];
    let mut groups = [[7usize; 2]; SET];
    let output = Output {
        out: room::front_mut(&mut out, head[1]),
        records: room::front_mut(&mut records, head[2]),
        groups: room::front_mut(&mut groups, head[3]),
    };
    let (points, more) = room::parted(set.points, head[4]);
    after_packing(head[0], Set { points, ..set }, more, ranges, output)
}

// A packing or an addition, and the checksums of the rows after it.
fn after_packing(
    form: usize,
    set: Set<'_>,
    more: &[i32],
    ranges: &[[usize; 2]],
    mut output: Output<'_>,
) -> Answer {
    let packed = pack(form, set, more, ranges, &mut output);
    output.sums(column::with_packed(answer::begin(), packed))
}

// Has the library pack in the form of that number: 0 to 3 into a contour set, from 4 on into a shape set.
fn pack(
    form: usize,
    set: Set<'_>,
    more: &[i32],
    ranges: &[[usize; 2]],
    to: &mut Output<'_>,
) -> Result<Sizes, Refusal> {
    match form {
        0..=3 => pack_contours(form, set, more, to.out, to.records),
        4 => buffer::shapes::set_with_contour(set.points, to.out, to.records, to.groups),
        5 => buffer::shapes::set_with_shape(
            set.points,
            set.contours,
            to.out,
            to.records,
            to.groups,
        ),
        6 => buffer::shapes::set_with_shapes(
            set.points,
            set.contours,
            set.shapes,
            to.out,
            to.records,
            to.groups,
        ),
        _ => buffer::shapes::add_shape(
            set.points,
            set.contours,
            set.shapes,
            more,
            ranges,
            to.out,
            to.records,
            to.groups,
        ),
    }
}

fn pack_contours(
    form: usize,
    set: Set<'_>,
    more: &[i32],
    out: &mut [i32],
    records: &mut [[usize; 2]],
) -> Result<Sizes, Refusal> {
    let Set {
        points,
        contours,
        shapes,
    } = set;
    match form {
        0 => buffer::contours::set_with_contour(points, out, records),
        1 => buffer::contours::set_with_shape(points, contours, out, records),
        2 => buffer::contours::set_with_shapes(points, contours, shapes, out, records),
        _ => buffer::contours::add_contour(points, contours, more, out, records),
    }
}
