// The answers of the calls on sets, and how C has them.
ghost use Rattle.std.specs.Prelude.{◌≡◌};

use replies::Refusal;

// A count for C: its reply number, and 0 where it is refused.
#[repr(C)]
#[derive(Clone, Copy)]
pub struct Counted {
    pub reply: u32,
    pub count: usize,
}

impl From<Result<usize, Refusal>> for Counted {
    ghost use Rattle.buffer.specs.Answers.{counted_as};

    ghost from_gives = { λ answer told. told ≡ counted_as answer };

    fn from(answer: Result<usize, Refusal>) -> Counted {
        match answer {
            Ok(count) => Counted { reply: 0, count },
            Err(refusal) => Counted {
                reply: refusal.number(),
                count: 0,
            },
        }
    }
}

// How many of each a set has that was written; no shapes in a contour set.
#[derive(Clone, Copy, Debug, PartialEq, Eq)]
pub struct Sizes {
    pub points: usize,
    pub contours: usize,
    pub shapes: usize,
}

// What packing wrote, for C: its reply number, and how many of each; 0 where it is refused.
#[repr(C)]
#[derive(Clone, Copy)]
pub struct Packed {
    pub reply: u32,
    pub points: usize,
    pub contours: usize,
    pub shapes: usize,
}

impl From<Result<Sizes, Refusal>> for Packed {
    ghost use Rattle.buffer.specs.Answers.{packed_as};

    ghost from_gives = { λ answer told. told ≡ packed_as answer };

    fn from(answer: Result<Sizes, Refusal>) -> Packed {
        match answer {
            Ok(sizes) => Packed {
                reply: 0,
                points: sizes.points,
                contours: sizes.contours,
                shapes: sizes.shapes,
            },
            Err(refusal) => Packed {
                reply: refusal.number(),
                points: 0,
                contours: 0,
                shapes: 0,
            },
        }
    }
}
