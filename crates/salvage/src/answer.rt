// The answer of a salvage.
ghost use Rattle.std.specs.Prelude.{◌≡◌};

use replies::Refusal;

// What was salvaged: how many bytes were written, how many contours were dropped and how many never came, and how many bytes
// stood past the promised count.
#[derive(Clone, Copy, Debug, PartialEq, Eq)]
pub struct Saved {
    pub bytes: usize,
    pub dropped: usize,
    pub missing: usize,
    pub past: usize,
}

// The same for C: its reply number, and 0 of each where it is refused.
#[repr(C)]
#[derive(Clone, Copy)]
pub struct Salvaged {
    pub reply: u32,
    pub bytes: usize,
    pub dropped: usize,
    pub missing: usize,
    pub past: usize,
}

impl From<Result<Saved, Refusal>> for Salvaged {
    ghost use Rattle.salvage.specs.Outcome.{salvaged_as};

    ghost from_gives = { λ answer told. told ≡ salvaged_as answer };

    fn from(answer: Result<Saved, Refusal>) -> Salvaged {
        match answer {
            Ok(saved) => Salvaged {
                reply: 0,
                bytes: saved.bytes,
                dropped: saved.dropped,
                missing: saved.missing,
                past: saved.past,
            },
            Err(refusal) => Salvaged {
                reply: refusal.number(),
                bytes: 0,
                dropped: 0,
                missing: 0,
                past: 0,
            },
        }
    }
}
