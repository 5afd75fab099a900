// What becomes of each contour of shapes that are cleaned: it is kept, it collapses, or it stands behind a collapsed outline.
#![tactic(auto)]

pub mod inner;

ghost use Rattle.std.specs.Prelude.{◌≡◌};
ghost use Rattle.ring.specs.declared.Rule as R;
ghost use Rattle.buffer.specs.Answers.{counted_as};
ghost use Rattle.fates.specs.Outcome.{lent, leaving, fates_outcome};

use inner::shapes;
use replies::Refusal;
use ring::Rule;
use sets::inner::lacking;

// The fates by a rule: refused, or a number for each contour in front of their row, and how many are kept.
fn told(
    rule: Rule,
    points: &[i32],
    contours: &[[usize; 2]],
    shapes: &[[usize; 2]],
    next: &mut [u32],
    prev: &mut [u32],
    mark: &mut [u8],
    fates: &mut [u8],
) -> Result<usize, Refusal>
    ensures { leaving (counted_as result) (lent next.new prev.new mark.new fates.new)
        ≡ fates_outcome rule points.now contours.now shapes.now
        (lent next.old prev.old mark.old fates.old) }
{
    let n = points.len() / 2;
    let k = contours.len();
    let room = k <= fates.len();
    buffer::shapes::check(points, contours, shapes)?;
    lacking::rows(n, next.len(), prev.len(), mark.len(), room)?;
    Ok(shapes::sweep(
        rule,
        points,
        contours,
        shapes,
        &mut next[..n],
        &mut prev[..n],
        &mut mark[..n],
        &mut fates[..k],
    ))
}

// The fates of the contours where their shapes lose their collinear points.
pub fn simplified(
    points: &[i32],
    contours: &[[usize; 2]],
    shapes: &[[usize; 2]],
    next: &mut [u32],
    prev: &mut [u32],
    mark: &mut [u8],
    fates: &mut [u8],
) -> Result<usize, Refusal>
    ensures { leaving (counted_as result) (lent next.new prev.new mark.new fates.new)
        ≡ fates_outcome R.Rule.Collinear points.now contours.now shapes.now
        (lent next.old prev.old mark.old fates.old) }
{
    told(
        Rule::Collinear,
        points,
        contours,
        shapes,
        next,
        prev,
        mark,
        fates,
    )
}

// The fates of the contours where their shapes lose their spikes.
pub fn despiked(
    points: &[i32],
    contours: &[[usize; 2]],
    shapes: &[[usize; 2]],
    next: &mut [u32],
    prev: &mut [u32],
    mark: &mut [u8],
    fates: &mut [u8],
) -> Result<usize, Refusal>
    ensures { leaving (counted_as result) (lent next.new prev.new mark.new fates.new)
        ≡ fates_outcome R.Rule.Spike points.now contours.now shapes.now
        (lent next.old prev.old mark.old fates.old) }
{
    told(
        Rule::Spike,
        points,
        contours,
        shapes,
        next,
        prev,
        mark,
        fates,
    )
}
