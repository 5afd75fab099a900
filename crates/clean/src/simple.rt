// Simple contours: no vertex whose two edges have cross 0.
ghost use Rattle.std.specs.Prelude.{◌≡◌};
ghost use Rattle.replies.specs.Verdicts.{answered};
ghost use Rattle.ring.specs.declared.Rule as R;
ghost use Rattle.clean.specs.Verdicts.{simple as simple_verdict};
ghost use Rattle.clean.specs.Outcome.{lent, cleaned_as, leaving, outcome};

use crate::cleaning;
use crate::cleaning::Cleaning;
use crate::inner::verdicts;
use replies::Refusal;
use ring::Rule;

// Whether the contour has three or more points, and no vertex whose two edges have cross 0.
pub fn is_simple(points: &[i32]) -> Result<bool, Refusal>
    ensures { answered result ≡ simple_verdict points.now }
{
    grid::domain(points)?;
    Ok(verdicts::passes(Rule::Collinear, points))
}

// The contour without its collinear points.
pub fn simplified(
    points: &[i32],
    next: &mut [u32],
    prev: &mut [u32],
    mark: &mut [u8],
    out: &mut [i32],
) -> Result<Cleaning, Refusal>
    ensures { leaving (cleaned_as result) (lent next.new prev.new mark.new out.new)
        ≡ outcome R.Rule.Collinear points.now
        (lent next.old prev.old mark.old out.old) }
{
    cleaning::clean(Rule::Collinear, points, next, prev, mark, out)
}
