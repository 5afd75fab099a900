// The answer of the way back.
ghost use Rattle.std.specs.Prelude.{◌≡◌};

use replies::Refusal;

// How many commands and floats were written.
#[derive(Clone, Copy, Debug, PartialEq, Eq)]
pub struct Sizes {
    pub commands: usize,
    pub floats: usize,
}

// What was drawn, for C: its reply number, and how many commands and floats; 0 where it is refused.
#[repr(C)]
#[derive(Clone, Copy)]
pub struct Drawn {
    pub reply: u32,
    pub commands: usize,
    pub floats: usize,
}

impl From<Result<Sizes, Refusal>> for Drawn {
    ghost use Rattle.drawing.specs.Exporting.{drawn_as};

    ghost from_gives = { λ answer told. told ≡ drawn_as answer };

    fn from(answer: Result<Sizes, Refusal>) -> Drawn {
        match answer {
            Ok(sizes) => Drawn {
                reply: 0,
                commands: sizes.commands,
                floats: sizes.floats,
            },
            Err(refusal) => Drawn {
                reply: refusal.number(),
                commands: 0,
                floats: 0,
            },
        }
    }
}
