// Contours without spikes: no vertex where the way reverses.
ghost use Rattle.std.specs.Prelude.{◌≡◌};
ghost use Rattle.replies.specs.Verdicts.{answered};
ghost use Rattle.ring.specs.declared.Rule as R;
ghost use Rattle.clean.specs.Verdicts.{spike_free};
ghost use Rattle.clean.specs.Outcome.{lent, cleaned_as, leaving, outcome};

use crate::cleaning;
use crate::cleaning::Cleaning;
use crate::inner::verdicts;
use replies::Refusal;
use ring::Rule;

// Whether the contour has no spikes, equal neighbours aside.
pub fn has_no_spikes(points: &[i32]) -> Result<bool, Refusal>
    ensures { answered result ≡ spike_free points.now }
{
    grid::domain(points)?;
    Ok(verdicts::passes(Rule::Spike, points))
}

// The contour without its spikes and its equal neighbours.
pub fn despiked(
    points: &[i32],
    next: &mut [u32],
    prev: &mut [u32],
    mark: &mut [u8],
    out: &mut [i32],
) -> Result<Cleaning, Refusal>
    ensures { leaving (cleaned_as result) (lent next.new prev.new mark.new out.new)
        ≡ outcome R.Rule.Spike points.now
        (lent next.old prev.old mark.old out.old) }
{
    cleaning::clean(Rule::Spike, points, next, prev, mark, out)
}
