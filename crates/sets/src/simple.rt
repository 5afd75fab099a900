// Sets of simple contours, and shapes without their collinear points.
ghost use Rattle.std.specs.Prelude.{◌≡◌, []};
ghost use Rattle.replies.specs.Verdicts.{answered};
ghost use Rattle.sets.specs.Verdicts.{simple as simple_verdict};
ghost use Rattle.ring.specs.declared.Rule as R;
ghost use Rattle.sets.specs.Outcome.{cleaned_as, lent, leaving, shape_outcome, shapes_outcome};

use crate::cleaning;
use crate::cleaning::SetCleaning;
use crate::inner::passing;
use replies::Refusal;
use ring::Rule;

// Whether every contour of the set is simple.
pub fn is_simple(points: &[i32], ranges: &[[usize; 2]]) -> Result<bool, Refusal>
    ensures { answered result ≡ simple_verdict points.now ranges.now }
{
    passing::verdict(Rule::Collinear, points, ranges)
}

// The shape without its collinear points.
pub fn simplified_shape(
    points: &[i32],
    ranges: &[[usize; 2]],
    next: &mut [u32],
    prev: &mut [u32],
    mark: &mut [u8],
    out: &mut [i32],
    records: &mut [[usize; 2]],
) -> Result<SetCleaning, Refusal>
    ensures { leaving (cleaned_as result)
        (lent next.new prev.new mark.new
        out.new records.new [])
        ≡ shape_outcome R.Rule.Collinear points.now ranges.now
        (lent next.old prev.old mark.old
        out.old records.old []) }
{
    cleaning::clean_shape(
        Rule::Collinear,
        points,
        ranges,
        next,
        prev,
        mark,
        out,
        records,
    )
}

// The shapes without their collinear points.
pub fn simplified_shapes(
    points: &[i32],
    contours: &[[usize; 2]],
    shapes: &[[usize; 2]],
    next: &mut [u32],
    prev: &mut [u32],
    mark: &mut [u8],
    out: &mut [i32],
    records: &mut [[usize; 2]],
    groups: &mut [[usize; 2]],
) -> Result<SetCleaning, Refusal>
    ensures { leaving (cleaned_as result)
        (lent next.new prev.new mark.new
        out.new records.new groups.new)
        ≡ shapes_outcome R.Rule.Collinear points.now contours.now shapes.now
        (lent next.old prev.old mark.old
        out.old records.old groups.old) }
{
    cleaning::clean_shapes(
        Rule::Collinear,
        points,
        contours,
        shapes,
        next,
        prev,
        mark,
        out,
        records,
        groups,
    )
}
