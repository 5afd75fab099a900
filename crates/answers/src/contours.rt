// The kinds of contours.
use crate::column;
use crate::lent::{Scratch, Walk};
use cases::answer::Answer;
use cases::case::HEAD;
use cases::room::{LONG, LONG_NUMBERS, SET, SET_NUMBERS};
use cases::{answer, checksum, room};
use clean::{Cleaned, Cleaning};
use replies::Refusal;

// What is told of a cleaning: what the library answers, the checksums of the rows of scratch and of the output, and the
// length and the checksum of the part that is handed out.
#[derive(Clone, Copy)]
struct Told {
    cleaned: Result<Cleaning, Refusal>,
    scratch: [u32; 3],
    out: u32,
    length: usize,
    part: u32,
}

// Every question about a contour and a point, and both cleanings.
pub fn asked(point: [i32; 2], points: &[i32]) -> Answer {
    let answer = with_verdicts(with_areas(points), points, point);
    with_both_cleanings(answer, points)
}

// Where a point lies to a contour.
pub fn located(point: [i32; 2], points: &[i32]) -> Answer {
    let located = path::locate(points, point[0], point[1]);
    answer::begin()
        .word(replies::told(located))
        .word(u32::from(located.unwrap_or(path::OUTSIDE)))
}

fn with_areas(points: &[i32]) -> Answer {
    answer::begin()
        .with(column::area(area::area_two(points)))
        .with(column::area(area::area(points)))
}

fn with_verdicts(answer: Answer, points: &[i32], point: [i32; 2]) -> Answer {
    let contains = path::contains_point(points, point[0], point[1]);
    answer
        .with(column::verdict(path::is_clockwise_ordered(points)))
        .with(column::verdict(path::is_convex(points)))
        .with(column::verdict(contains))
        .with(column::verdict(clean::simple::is_simple(points)))
        .with(column::verdict(clean::despike::has_no_spikes(points)))
}

fn with_both_cleanings(answer: Answer, points: &[i32]) -> Answer {
    let simplified = with_summary(answer, cleaning(Walk::Simplified, points));
    with_summary(simplified, cleaning(Walk::Despiked, points))
}

// A cleaning in rows made for it: most contours are short, and long rows take long to make.
fn cleaning(walk: Walk, points: &[i32]) -> Told {
    if points.len() <= SET_NUMBERS {
        return in_short_rows(walk, points);
    }
    in_long_rows(walk, points, [LONG, LONG, LONG, LONG_NUMBERS])
}

// With how many points were kept, the decisions, the turns and the checksum of what is handed out; of a collapsed contour
// with its reply, the decisions and the turns.
fn with_summary(answer: Answer, told: Told) -> Answer {
    let cleaning = match told.cleaned {
        Ok(cleaning) => cleaning,
        Err(refusal) => return answer.with(column::refusal(refusal)),
    };
    match cleaning.kept {
        Some(points) => with_walk(answer.amount(points), cleaning).joined(told.part as usize),
        None => with_walk(answer.word(replies::COLLAPSED), cleaning),
    }
}

// With the decisions and the turns of a walk.
fn with_walk(answer: Answer, cleaning: Cleaning) -> Answer {
    answer.joined(cleaning.decisions).joined(cleaning.turns)
}

fn in_short_rows(walk: Walk, points: &[i32]) -> Told {
    let mut next = [0u32; SET];
    let mut prev = [0u32; SET];
    let mut mark = [0u8; SET];
    let mut out = [0i32; SET_NUMBERS];
    let scratch = Scratch {
        next: &mut next,
        prev: &mut prev,
        mark: &mut mark,
    };
    after_cleaning(walk, points, scratch, &mut out)
}

// A cleaning in rows of given lengths, full of canaries.
fn in_long_rows(walk: Walk, points: &[i32], lengths: [usize; 4]) -> Told {
    let mut next = [7u32; LONG];
    let mut prev = [7u32; LONG];
    let mut mark = [7u8; LONG];
    let mut out = [-7i32; LONG_NUMBERS];
    let scratch = Scratch {
        next: room::front_mut(&mut next, lengths[0]),
        prev: room::front_mut(&mut prev, lengths[1]),
        mark: room::front_mut(&mut mark, lengths[2]),
    };
    after_cleaning(walk, points, scratch, room::front_mut(&mut out, lengths[3]))
}

// A cleaning in these rows, and what is told of it and of them.
fn after_cleaning(walk: Walk, points: &[i32], scratch: Scratch<'_>, out: &mut [i32]) -> Told {
    let Scratch { next, prev, mark } = scratch;
    let cleaned = match walk {
        Walk::Simplified => clean::simple::simplified(points, next, prev, mark, out),
        Walk::Despiked => clean::despike::despiked(points, next, prev, mark, out),
    };
    let part = clean::kept_part(points, out, Cleaned::from(cleaned).points);
    Told {
        cleaned,
        scratch: [checksum::of(next), checksum::of(prev), checksum::of(mark)],
        out: checksum::of(out),
        length: part.len(),
        part: checksum::of(part),
    }
}

// The kind of a cleaning in rows of given lengths.
pub fn lent(head: [usize; HEAD], points: &[i32]) -> Answer {
    let lengths = [head[1], head[2], head[3], head[4]];
    let told = in_long_rows(Walk::from(head[0]), points, lengths);
    with_sums(of_cleaned(Cleaned::from(told.cleaned)), told)
}

fn of_cleaned(cleaned: Cleaned) -> Answer {
    answer::begin()
        .word(cleaned.reply)
        .amount(cleaned.points)
        .amount(cleaned.decisions)
        .amount(cleaned.turns)
}

fn with_sums(answer: Answer, told: Told) -> Answer {
    let scratch = told.scratch;
    answer
        .word(scratch[0])
        .word(scratch[1])
        .word(scratch[2])
        .word(told.out)
        .amount(told.length)
        .joined(told.part as usize)
}

// What a cleaning kept, as a part of the contour or of the output behind it.
pub fn kept(head: [usize; HEAD], numbers: &[i32]) -> Answer {
    let k = head[0] % 4294967296 * 4294967296 + head[1] % 4294967296;
    let (points, out) = room::parted(numbers, head[2]);
    let part = clean::kept_part(points, out, k);
    column::with_part(answer::begin(), part)
}
