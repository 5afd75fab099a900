// The answers to a case, in columns.
ghost use Rattle.std.specs.Prelude.{◌≤◌};

use crate::checksum::Summed;
use crate::text::Text;
use crate::{checksum, text};

// How many columns an answer can have.
pub const COLUMNS: usize = 18;

#[derive(Clone, Copy)]
pub enum Column {
    Number(u64),
    // A number that belongs to the column before.
    Joined(u64),
    // How far a number is below zero.
    Below(u64),
    // The number of a reply that is no answer.
    Refusal(u64),
    Verdict(bool),
}

#[derive(Clone, Copy)]
pub struct Answer {
    pub columns: [Column; COLUMNS],
    pub count: usize,
    ghost inside: { count ≤ 18 },
}

// No columns yet.
pub fn begin() -> Answer {
    Answer {
        columns: [Column::Number(0); COLUMNS],
        count: 0,
    }
}

impl Column {
    fn put(self, text: &mut Text) {
        match self {
            Column::Number(value) => text.put_after(b" ", value),
            Column::Joined(value) => text.put_after(b":", value),
            Column::Below(value) => text.put_after(b" -", value),
            Column::Refusal(reply) => text.put_after(b" !", reply),
            Column::Verdict(true) => text.put(b" yes"),
            Column::Verdict(false) => text.put(b" no"),
        }
    }
}

impl Answer {
    // A column more, as far as there is room.
    pub fn with(self, column: Column) -> Answer {
        let mut answer = self;
        if answer.count < COLUMNS {
            answer.columns[answer.count] = column;
            answer.count += 1;
        }
        answer
    }

    pub fn number(self, value: u64) -> Answer {
        self.with(Column::Number(value))
    }

    pub fn word(self, value: u32) -> Answer {
        self.number(u64::from(value))
    }

    pub fn amount(self, value: usize) -> Answer {
        self.number(value as u64)
    }

    // A number that belongs to the column before.
    pub fn joined(self, value: usize) -> Answer {
        self.with(Column::Joined(value as u64))
    }

    // The checksum of a row.
    pub fn sum<T: Summed>(self, row: &[T]) -> Answer {
        self.word(checksum::of(row))
    }

    // Writes the line of a case, and answers whether that went well.
    pub fn write(self, rt: &impl Print, case: u64) -> bool {
        let mut text = text::begin();
        text.put_number(case);
        for column in &self.columns[..self.count] {
            column.put(&mut text);
        }
        text.write(rt)
    }
}
