// What the library answers to a case of the kind `a`: sets that are added to figures, and figures that are joined.
#![tactic(auto)]

mod calls;
mod words;

use answers::column;
use answers::lent::Scratch;
use answers::told::Told;
use cases::answer::Answer;
use cases::case::HEAD;
use cases::given::Set;
use cases::room::{SET, SET_NUMBERS};
use cases::{answer, room};
use figures::Figures;

// The kind `a`: sets added one by one to figures in rows of given lengths, full of canaries, and other figures that are
// joined with the outcome.
pub fn lent(head: [usize; HEAD], given: &[[usize; 2]], sets: Set<'_>) -> Answer {
    let mut next = [7u32; SET];
    let mut prev = [7u32; SET];
    let mut mark = [7u8; SET];
    let mut out = [-7i32; SET_NUMBERS];
    let mut scratch = Scratch {
        next: room::front_mut(&mut next, head[1]),
        prev: room::front_mut(&mut prev, head[2]),
        mark: room::front_mut(&mut mark, head[3]),
    };
    let out = room::front_mut(&mut out, head[4]);
    let words = words::put(given);
    let start = words::figures(&words[0]);
    let others = words::figures(&words[1]);
    let (told, f) = calls::make(head[0], sets, start, &mut scratch, out);
    let answer = scratch.sums(of_told(told, f)).sum(out);
    with_joined(with_joined(answer, f, others), others, f)
}

// The replies, and each field of the figures, the totals in one checksum.
fn of_told(told: Told, f: Figures) -> Answer {
    told.columns(answer::begin())
        .sum(&f.totals)
        .number(f.before)
        .number(f.after)
        .number(f.decisions)
        .with(column::signed(f.high))
        .word(f.low)
}

// The reply of a joining, and all fields of its figures in one checksum.
fn with_joined(answer: Answer, f: Figures, g: Figures) -> Answer {
    let joined = figures::joined(f, g);
    answer
        .word(replies::told(joined))
        .word(words::checksum(joined.unwrap_or(f)))
}
