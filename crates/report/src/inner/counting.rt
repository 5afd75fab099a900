// What cleaning a contour answers. A listing shows no point that is kept, so none is written.
ghost use Rattle.std.specs.Prelude.{◌≡◌, [], ◌<◌, ◌≤◌, length};
ghost use Rattle.grid.specs.Domain.{Contour};
ghost use Rattle.ring.specs.Walk.{survivors as survivors_of};
ghost use Rattle.ring.specs.Rule.{goes};
ghost use Rattle.ring.specs.inside.Rows.{FirstStand};
ghost use Rattle.clean.specs.Outcome.{as_cleaned};
ghost use Rattle.clean.specs.inside.Settling.{alone};
ghost use Rattle.report.specs.Listing.{rule_of};

use clean::Cleaning;
use ring::Rule;

// The rule of an edition.
pub fn rule(second: bool) -> Rule
    ensures { result ≡ rule_of second }
{
    if second {
        return Rule::Spike;
    }
    Rule::Collinear
}

// How many positions survive. There are so few points that 16 bits count them, eight at a time.
fn survivors(mark: &[u8]) -> usize
    requires { length mark.now ≤ 8192 }
    ensures { result ≡ length (survivors_of mark.now) }
{
    let kept: u16 = mark.iter().map(|m| u16::from(*m < 2)).sum();
    usize::from(kept)
}

// The answer of the walk of a contour of three points or more, of which the first `standing` stand.
fn walked(
    second: bool,
    contour: &[i32],
    standing: usize,
    next: &mut [u32],
    prev: &mut [u32],
    mark: &mut [u8],
) -> Cleaning
    requires contour { Contour contour.now (length mark.old) × (3 ≤ length mark.old) }
    requires next_len { (length next.old ≡ length mark.old) × (length prev.old ≡ length mark.old) }
    requires standing_in_bounds { (standing < length mark.old)
        × FirstStand (goes (rule_of second) contour.now) (length mark.old) standing }
    requires mark_len_bound { length mark.old ≤ 8192 }
    ensures { as_cleaned result ≡ (alone (rule_of second) contour.now []).answer }
{
    let ending = ring::inner::walk(rule(second), contour, standing, next, prev, mark);
    let decisions = ending.decisions;
    if ending.kept {
        let points = survivors(mark);
        let pending = ring::inner::unmarked(mark);
        return Cleaning {
            kept: Some(points),
            decisions,
            turns: ring::inner::turns(ending, points, pending, prev, mark),
        };
    }
    Cleaning {
        kept: None,
        decisions,
        turns: decisions,
    }
}

// The answer of any contour, with scratch of exactly its points' count. Where all points stand nothing is linked.
pub fn answer(
    second: bool,
    contour: &[i32],
    next: &mut [u32],
    prev: &mut [u32],
    mark: &mut [u8],
) -> Cleaning
    requires contour { Contour contour.now (length mark.old) }
    requires next_len { (length next.old ≡ length mark.old) × (length prev.old ≡ length mark.old) }
    requires mark_len_bound { length mark.old ≤ 8192 }
    ensures { as_cleaned result ≡ (alone (rule_of second) contour.now []).answer }
{
    let n = mark.len();
    if n < 3 {
        return Cleaning {
            kept: None,
            decisions: 0,
            turns: 0,
        };
    }
    let standing = ring::inner::standing(rule(second), contour, n);
    if standing == n {
        return Cleaning {
            kept: Some(n),
            decisions: n,
            turns: n,
        };
    }
    walked(second, contour, standing, next, prev, mark)
}
