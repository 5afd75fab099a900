// The answers of the calls on files, and how C has them.
ghost use Rattle.std.specs.Prelude.{◌≡◌};

use buffer::Sizes;
use replies::Refusal;

// What a file carries: its edition, and how many of each.
#[derive(Clone, Copy, Debug, PartialEq, Eq)]
pub struct Carried {
    pub edition: u32,
    pub sizes: Sizes,
}

// What was read, for C: its reply number, the edition of the file, and how many of each; 0 where it is refused.
#[repr(C)]
#[derive(Clone, Copy)]
pub struct Read {
    pub reply: u32,
    pub edition: u32,
    pub points: usize,
    pub contours: usize,
    pub shapes: usize,
}

impl From<Result<Carried, Refusal>> for Read {
    ghost use Rattle.setfile.specs.Reading.{read_as};

    ghost from_gives = { λ answer told. told ≡ read_as answer };

    fn from(answer: Result<Carried, Refusal>) -> Read {
        match answer {
            Ok(carried) => Read {
                reply: 0,
                edition: carried.edition,
                points: carried.sizes.points,
                contours: carried.sizes.contours,
                shapes: carried.sizes.shapes,
            },
            Err(refusal) => Read {
                reply: refusal.number(),
                edition: 0,
                points: 0,
                contours: 0,
                shapes: 0,
            },
        }
    }
}

// What was written, for C: its reply number, and how many bytes; 0 where it is refused.
#[repr(C)]
#[derive(Clone, Copy)]
pub struct Written {
    pub reply: u32,
    pub bytes: usize,
}

impl From<Result<usize, Refusal>> for Written {
    ghost use Rattle.setfile.specs.Writing.{written_as};

    ghost from_gives = { λ answer told. told ≡ written_as answer };

    fn from(answer: Result<usize, Refusal>) -> Written {
        match answer {
            Ok(bytes) => Written { reply: 0, bytes },
            Err(refusal) => Written {
                reply: refusal.number(),
                bytes: 0,
            },
        }
    }
}
