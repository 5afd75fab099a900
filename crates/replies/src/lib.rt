// Refusals, and the reply numbers that C gets of them. A call answers with the first whose condition holds, in the order 1, 2, 6, 3, 12, 4, 5, 8, 7; an import in the order 13, 14, 3, 2, 5, the first three by its first faulty command; an addition to a pool in the order 1, 2, 6, 3, 17, 5.
//
// | No. | Given exactly when | Leaves |
// |---|---|---|
// | 0 | done | result in front of output, rest unchanged; walk scratch zeroed |
// | 1 | odd count of coordinates | all unchanged |
// | 2 | over 65,536 points, or a file, read or to be written, over 65,536 bytes | all unchanged |
// | 3 | a coordinate or asked point off the grid | all unchanged |
// | 4 | scratch below the input's point count | all unchanged |
// | 5 | output (points or ranges) below the input's count; for the file writer, packing and additions, below the exact need | all unchanged |
// | 6 | ranges not sound | all unchanged |
// | 7 | collapsed | output unchanged, scratch zeroed |
// | 8 | area or winding of an empty contour, or area of a set that has one | all unchanged |
// | 9 | file edition neither 1 nor 2; for salvaging, not 1 | all unchanged |
// | 10 | file short or with bytes left over | all unchanged |
// | 11 | first contour doesn't begin a shape | all unchanged |
// | 12 | file can't carry it: over 4,095 contours, over 32,767 points in one, or an empty shape | all unchanged |
// | 13 | rows of kinds and floats whose lengths don't match, a kind that is none, or a Line or Close with nothing open | all unchanged |
// | 14 | a place that is a NaN or an infinity | all unchanged |
// | 15 | a contour of a file whose width is not the smallest, 1 to 32 | all unchanged |
// | 16 | a fill bit of a file that is set | all unchanged |
// | 17 | a press's held points would pass the pool less the other's part | all unchanged |
// | 18 | removing with none left | all unchanged |
#![tactic(auto)]

ghost use Rattle.std.specs.Prelude.{◌≡◌};

mod refusal;

pub use refusal::{Refusal, told};

// The reply of a cleaning that collapsed, which is no refusal.
pub const COLLAPSED: u32 = 7;

// The answer to a question of yes or no, as C has it: its reply number, and no where it is refused.
#[repr(C)]
#[derive(Clone, Copy)]
pub struct Verdict {
    pub reply: u32,
    pub yes: bool,
}

impl From<Result<bool, Refusal>> for Verdict {
    ghost use Rattle.replies.specs.Verdicts.{answered};

    ghost from_gives = { λ answer verdict. verdict ≡ answered answer };

    fn from(answer: Result<bool, Refusal>) -> Verdict {
        match answer {
            Ok(yes) => Verdict { reply: 0, yes },
            Err(refusal) => Verdict {
                reply: refusal.number(),
                yes: false,
            },
        }
    }
}
