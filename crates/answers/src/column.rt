// Columns of what the library answers.
use buffer::{Packed, Sizes};
use cases::answer::{Answer, Column};
use cases::checksum;
use replies::Refusal;

// The number of a refusal.
pub fn refusal(refusal: Refusal) -> Column {
    Column::Refusal(u64::from(refusal.number()))
}

pub fn verdict(answer: Result<bool, Refusal>) -> Column {
    answer.map_or_else(refusal, Column::Verdict)
}

pub fn area(answer: Result<i64, Refusal>) -> Column {
    answer.map_or_else(refusal, signed)
}

pub fn signed(value: i64) -> Column {
    if value < 0 {
        return Column::Below(value.unsigned_abs());
    }
    Column::Number(value.unsigned_abs())
}

pub fn counted(answer: Result<usize, Refusal>) -> Column {
    answer.map_or_else(refusal, |count| Column::Number(count as u64))
}

// How many numbers a part has, and their checksum.
pub fn with_part(answer: Answer, part: &[i32]) -> Answer {
    let sum = checksum::of(part);
    answer.amount(part.len()).joined(sum as usize)
}

pub fn with_packed(answer: Answer, packed: Result<Sizes, Refusal>) -> Answer {
    let packed = Packed::from(packed);
    answer
        .word(packed.reply)
        .amount(packed.points)
        .amount(packed.contours)
        .amount(packed.shapes)
}
