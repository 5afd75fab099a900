// What the sets of a week came to, and the answer of a call on such figures.
ghost use Rattle.std.specs.Prelude.{◌≡◌};
ghost use Rattle.figures.specs.Joining.{added_as};

use replies::Refusal;

// How many contours and refused sets had each reply, the points before and after, the decisions, and the sum of the kept
// contours' doubled areas, which is high * 2^32 + low.
#[repr(C)]
#[derive(Clone, Copy)]
pub struct Figures {
    pub totals: [u32; 22],
    pub before: u64,
    pub after: u64,
    pub decisions: u64,
    pub high: i64,
    pub low: u32,
}

// The answer of an addition to figures, as C has it: the reply number, and the figures then: as they were where it is
// refused.
#[repr(C)]
#[derive(Clone, Copy)]
pub struct Added {
    pub reply: u32,
    pub figures: Figures,
}

impl Added {
    // Of such figures that were to be added to, and what came of them.
    pub fn to(figures: Figures, answer: Result<Figures, Refusal>) -> Added
        ensures { result ≡ added_as figures answer }
    {
        match answer {
            Ok(figures) => Added { reply: 0, figures },
            Err(refusal) => Added {
                reply: refusal.number(),
                figures,
            },
        }
    }
}
