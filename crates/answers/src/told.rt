// What calls in a row are told: the last reply, how many there were, and all of them in one checksum.
use cases::answer::Answer;
use cases::checksum;
use replies::Refusal;

#[derive(Clone, Copy)]
pub struct Told {
    pub last: u32,
    pub count: u32,
    pub sum: u32,
}

// No call yet.
pub fn begin() -> Told {
    Told {
        last: 0,
        count: 0,
        sum: 0,
    }
}

impl Told {
    // With the reply of one call more. No row of a case has so many calls that their count wraps.
    pub fn with<T: Copy>(self, answer: Result<T, Refusal>) -> Told {
        let reply = replies::told(answer);
        Told {
            last: reply,
            count: self.count.wrapping_add(1),
            sum: checksum::added(self.sum, reply),
        }
    }

    // A column each.
    pub fn columns(self, answer: Answer) -> Answer {
        answer.word(self.last).word(self.count).word(self.sum)
    }
}
