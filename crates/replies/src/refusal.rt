// Why a call is refused. C programs get the number.
ghost use Rattle.std.specs.Prelude.{◌≡◌};
ghost use Rattle.replies.specs.Refusals.{number as number_of, told as told_of};

use std::fmt;

#[derive(Clone, Copy, Debug, PartialEq, Eq)]
pub enum Refusal {
    Odd = 1,
    TooMany = 2,
    OffGrid = 3,
    Scratch = 4,
    Room = 5,
    Ranges = 6,
    Collapsed = 7,
    Empty = 8,
    Edition = 9,
    Length = 10,
    NoShape = 11,
    CantCarry = 12,
    NoDrawing = 13,
    NotFinite = 14,
    Width = 15,
    Fill = 16,
    Full = 17,
    NoneLeft = 18,
    FiguresFull = 21,
}

impl Refusal {
    pub fn number(self) -> u32
        ensures { result ≡ number_of self }
    {
        self as u32
    }
}

impl fmt::Display for Refusal {
    fn fmt<W: fmt::Write>(&self, f: &mut fmt::Formatter<W>) -> fmt::Result {
        let number = self.number();
        write!(f, "refused {number}")
    }
}

// The number of what a call answers: 0 where it is done.
pub fn told<T: Copy>(answer: Result<T, Refusal>) -> u32
    ensures { result ≡ told_of answer }
{
    match answer {
        Ok(_) => 0,
        Err(refusal) => refusal.number(),
    }
}
