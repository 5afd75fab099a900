// The answers to cases of two sets that are compared: what the comparison says, and the row that it was lent.
#![tactic(auto)]

use cases::answer::Answer;
use cases::case::HEAD;
use cases::given::Set;
use cases::room::SET;
use cases::{answer, room};
use difference::Compared;

// Two sets compared, with a listing of given length, full of canaries. The second one's numbers are behind those of the
// first, and its contours stand as the shapes.
pub fn lent(head: [usize; HEAD], sets: Set<'_>) -> Answer {
    let mut listing = [[7usize; 2]; SET];
    let listing = room::front_mut(&mut listing, head[0]);
    let (points, others) = room::parted(sets.points, head[1]);
    let answered = difference::compare(points, sets.contours, others, sets.shapes, listing);
    let compared = Compared::from(answered);
    answer::begin()
        .word(compared.reply)
        .word(compared.refused)
        .amount(compared.contours)
        .sum(listing)
}
