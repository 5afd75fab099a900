// What the library answers to a case of a set that is asked about a point or cleaned.
#![tactic(auto)]

use answers::column;
use answers::lent::{Output, Scratch, Walk};
use cases::answer::Answer;
use cases::case::HEAD;
use cases::given::Set;
use cases::room::{SET, SET_NUMBERS};
use cases::{answer, room};
use replies::Refusal;
use sets::{CleanedSet, SetCleaning};

// Every question about a set and a point.
pub fn asked(point: [i32; 2], set: Set<'_>) -> Answer {
    with_shapes(with_contours(answer::begin(), set, point), set)
}

fn with_contours(before: Answer, set: Set<'_>, point: [i32; 2]) -> Answer {
    let Set {
        points,
        contours,
        ..
    } = set;
    let inside = sets::in_shape(points, contours, point[0], point[1]);
    before
        .with(column::verdict(sets::simple::is_simple(points, contours)))
        .with(column::verdict(sets::despike::has_no_spikes(points, contours)))
        .with(column::area(sets::areas::area_two(points, contours)))
        .with(column::area(sets::areas::area(points, contours)))
        .with(column::verdict(inside))
}

fn with_shapes(before: Answer, set: Set<'_>) -> Answer {
    let Set {
        points,
        contours,
        shapes,
    } = set;
    let simple = sets::shapes::is_simple(points, contours, shapes);
    let no_spikes = sets::shapes::has_no_spikes(points, contours, shapes);
    let area_two = sets::shapes::area_two(points, contours, shapes);
    let area = sets::shapes::area(points, contours, shapes);
    before
        .with(column::verdict(simple))
        .with(column::verdict(no_spikes))
        .with(column::area(area_two))
        .with(column::area(area))
}

// A cleaning in rows of given lengths, full of canaries, and where shapes are cleaned what becomes of each contour. Of its
// forms 0 and 1 clean one shape, 2 and 3 the shapes; the even ones simplify.
pub fn lent(head: [usize; HEAD], set: Set<'_>) -> Answer {
    let walk = Walk::from(head[0] % 2);
    if head[0] < 2 {
        return in_rows(head, set, walk, false);
    }
    with_fates(in_rows(head, set, walk, true), head, set, walk)
}

// The fates, in rows of the same lengths; their row has as many entries as that of the contour records.
fn with_fates(answer: Answer, head: [usize; HEAD], set: Set<'_>, walk: Walk) -> Answer {
    let mut next = [7u32; SET];
    let mut prev = [7u32; SET];
    let mut mark = [7u8; SET];
    let mut fates = [7u8; SET];
    let mut scratch = Scratch {
        next: room::front_mut(&mut next, head[1]),
        prev: room::front_mut(&mut prev, head[2]),
        mark: room::front_mut(&mut mark, head[3]),
    };
    let fates = room::front_mut(&mut fates, head[5]);
    let told = tell(walk, set, &mut scratch, fates);
    let counts = answer.word(replies::told(told)).amount(told.unwrap_or(0));
    scratch.sums(counts).sum(fates)
}

fn tell(
    walk: Walk,
    set: Set<'_>,
    scratch: &mut Scratch<'_>,
    fates: &mut [u8],
) -> Result<usize, Refusal> {
    let Set {
        points,
        contours,
        shapes,
    } = set;
    match walk {
        Walk::Simplified => fates::simplified(
            points,
            contours,
            shapes,
            scratch.next,
            scratch.prev,
            scratch.mark,
            fates,
        ),
        Walk::Despiked => fates::despiked(
            points,
            contours,
            shapes,
            scratch.next,
            scratch.prev,
            scratch.mark,
            fates,
        ),
    }
}

// A cleaning of the shapes or of one, and the checksums of the rows after it.
fn in_rows(head: [usize; HEAD], set: Set<'_>, walk: Walk, grouped: bool) -> Answer {
    let mut next = [7u32; SET];
    let mut prev = [7u32; SET];
    let mut mark = [7u8; SET];
    let mut out = [-7i32; SET_NUMBERS];
    let mut records = [[7usize; 2]; SET];
    let mut groups = [[7usize; 2]; SET];
    let mut scratch = Scratch {
        next: room::front_mut(&mut next, head[1]),
        prev: room::front_mut(&mut prev, head[2]),
        mark: room::front_mut(&mut mark, head[3]),
    };
    let mut output = Output {
        out: room::front_mut(&mut out, head[4]),
        records: room::front_mut(&mut records, head[5]),
        groups: room::front_mut(&mut groups, head[6]),
    };
    let cleaned = if grouped {
        clean_shapes(walk, set, &mut scratch, &mut output)
    } else {
        clean_shape(walk, set, &mut scratch, &mut output)
    };
    output.sums(scratch.sums(of_cleaned(CleanedSet::from(cleaned))))
}

fn of_cleaned(cleaned: CleanedSet) -> Answer {
    answer::begin()
        .word(cleaned.reply)
        .amount(cleaned.points)
        .amount(cleaned.contours)
        .amount(cleaned.shapes)
        .amount(cleaned.decisions)
        .amount(cleaned.turns)
}

fn clean_shape(
    walk: Walk,
    set: Set<'_>,
    scratch: &mut Scratch<'_>,
    to: &mut Output<'_>,
) -> Result<SetCleaning, Refusal> {
    let Set {
        points,
        contours,
        ..
    } = set;
    match walk {
        Walk::Simplified => sets::simple::simplified_shape(
            points,
            contours,
            scratch.next,
            scratch.prev,
            scratch.mark,
            to.out,
            to.records,
        ),
        Walk::Despiked => sets::despike::despiked_shape(
            points,
            contours,
            scratch.next,
            scratch.prev,
            scratch.mark,
            to.out,
            to.records,
        ),
    }
}

fn clean_shapes(
    walk: Walk,
    set: Set<'_>,
    scratch: &mut Scratch<'_>,
    to: &mut Output<'_>,
) -> Result<SetCleaning, Refusal> {
    let Set {
        points,
        contours,
        shapes,
    } = set;
    match walk {
        Walk::Simplified => sets::simple::simplified_shapes(
            points,
            contours,
            shapes,
            scratch.next,
            scratch.prev,
            scratch.mark,
            to.out,
            to.records,
            to.groups,
        ),
        Walk::Despiked => sets::despike::despiked_shapes(
            points,
            contours,
            shapes,
            scratch.next,
            scratch.prev,
            scratch.mark,
            to.out,
            to.records,
            to.groups,
        ),
    }
}
