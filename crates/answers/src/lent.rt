// Rows that are lent to the library.
use cases::answer::Answer;

// Which walk cleans.
#[derive(Clone, Copy, PartialEq, Eq)]
pub enum Walk {
    Simplified,
    Despiked,
}

// The walk of a number in front.
impl From<usize> for Walk {
    fn from(number: usize) -> Walk {
        match number {
            0 => Walk::Simplified,
            _ => Walk::Despiked,
        }
    }
}

// The rows of scratch of a cleaning.
#[derive(Drop)]
pub struct Scratch<'a> {
    pub next: &'a mut [u32],
    pub prev: &'a mut [u32],
    pub mark: &'a mut [u8],
}

// The rows that a set is written into.
#[derive(Drop)]
pub struct Output<'a> {
    pub out: &'a mut [i32],
    pub records: &'a mut [[usize; 2]],
    pub groups: &'a mut [[usize; 2]],
}

impl<'a> Scratch<'a> {
    // The checksums of the rows behind an answer.
    pub fn sums(&self, answer: Answer) -> Answer {
        answer.sum(self.next).sum(self.prev).sum(self.mark)
    }
}

impl<'a> Output<'a> {
    // The same.
    pub fn sums(&self, answer: Answer) -> Answer {
        answer.sum(self.out).sum(self.records).sum(self.groups)
    }
}
