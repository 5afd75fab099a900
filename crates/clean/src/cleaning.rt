// What both cleaners share: the refusals, and the walk of what is not refused.
ghost use Rattle.std.specs.Prelude.{◌≡◌};
ghost use Rattle.replies.specs.Ladder.{first_of};
ghost use Rattle.replies.specs.Refusals.{told};
ghost use Rattle.clean.specs.Outcome.{refusals, lent, cleaned_as, leaving, outcome};

use crate::inner::{lacking, settling};
use replies::Refusal;
use ring::Rule;

// How a cleaning ended: how many points are kept, none of a contour that collapsed, after how many decisions, and in how many
// turns: those that decided, and those that stepped over a marked point.
#[derive(Clone, Copy, Debug, PartialEq, Eq)]
pub struct Cleaning {
    pub kept: Option<usize>,
    pub decisions: usize,
    pub turns: usize,
}

// The same for C: its reply number, and 0 points where it is refused or collapsed.
#[repr(C)]
#[derive(Clone, Copy)]
pub struct Cleaned {
    pub reply: u32,
    pub points: usize,
    pub decisions: usize,
    pub turns: usize,
}

impl From<Result<Cleaning, Refusal>> for Cleaned {
    ghost use Rattle.clean.specs.Outcome.{cleaned_as};

    ghost from_gives = { λ answer told. told ≡ cleaned_as answer };

    fn from(answer: Result<Cleaning, Refusal>) -> Cleaned {
        match answer {
            Ok(cleaning) => Cleaned {
                reply: if cleaning.kept.is_some() {
                    0
                } else {
                    replies::COLLAPSED
                },
                points: cleaning.kept.unwrap_or(0),
                decisions: cleaning.decisions,
                turns: cleaning.turns,
            },
            Err(refusal) => Cleaned {
                reply: refusal.number(),
                points: 0,
                decisions: 0,
                turns: 0,
            },
        }
    }
}

// What a cleaning asks: its first refusal, if any.
fn check(points: &[i32], next: usize, prev: usize, mark: usize, out: usize) -> Result<(), Refusal>
    ensures { told result ≡ first_of (refusals points.now next prev mark out) }
{
    grid::domain(points)?;
    let n = points.len() / 2;
    lacking::scratch(n, next, prev, mark)?;
    if out < 2 * n {
        return Err(Refusal::Room);
    }
    Ok(())
}

// A contour cleaned by a rule: refused, or kept in front of the output, or collapsed.
pub fn clean(
    rule: Rule,
    points: &[i32],
    next: &mut [u32],
    prev: &mut [u32],
    mark: &mut [u8],
    out: &mut [i32],
) -> Result<Cleaning, Refusal>
    ensures { leaving (cleaned_as result) (lent next.new prev.new mark.new out.new)
        ≡ outcome rule points.now
        (lent next.old prev.old mark.old out.old) }
{
    check(points, next.len(), prev.len(), mark.len(), out.len())?;
    let n = points.len() / 2;
    Ok(settling::sweep(
        rule,
        points,
        &mut next[..n],
        &mut prev[..n],
        &mut mark[..n],
        out,
    ))
}
