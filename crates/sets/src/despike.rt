// Sets of contours without spikes, and shapes without their spikes.
ghost use Rattle.std.specs.Prelude.{◌≡◌, []};
ghost use Rattle.replies.specs.Verdicts.{answered};
ghost use Rattle.sets.specs.Verdicts.{spike_free};
ghost use Rattle.ring.specs.declared.Rule as R;
ghost use Rattle.sets.specs.Outcome.{cleaned_as, lent, leaving, shape_outcome, shapes_outcome};

use crate::cleaning;
use crate::cleaning::SetCleaning;
use crate::inner::passing;
use replies::Refusal;
use ring::Rule;

// Whether no contour of the set has spikes.
pub fn has_no_spikes(points: &[i32], ranges: &[[usize; 2]]) -> Result<bool, Refusal>
    ensures { answered result ≡ spike_free points.now ranges.now }
{
    passing::verdict(Rule::Spike, points, ranges)
}

// The shape without its spikes.
pub fn despiked_shape(
    points: &[i32],
    ranges: &[[usize; 2]],
    next: &mut [u32],
    prev: &mut [u32],
    mark: &mut [u8],
    out: &mut [i32],
    records: &mut [[usize; 2]],
) -> Result<SetCleaning, Refusal>
    ensures { leaving (cleaned_as result)
        (lent next.new prev.new mark.new
        out.new records.new [])
        ≡ shape_outcome R.Rule.Spike points.now ranges.now
        (lent next.old prev.old mark.old
        out.old records.old []) }
{
    cleaning::clean_shape(Rule::Spike, points, ranges, next, prev, mark, out, records)
}

// The shapes without their spikes.
pub fn despiked_shapes(
    points: &[i32],
    contours: &[[usize; 2]],
    shapes: &[[usize; 2]],
    next: &mut [u32],
    prev: &mut [u32],
    mark: &mut [u8],
    out: &mut [i32],
    records: &mut [[usize; 2]],
    groups: &mut [[usize; 2]],
) -> Result<SetCleaning, Refusal>
    ensures { leaving (cleaned_as result)
        (lent next.new prev.new mark.new
        out.new records.new groups.new)
        ≡ shapes_outcome R.Rule.Spike points.now contours.now shapes.now
        (lent next.old prev.old mark.old
        out.old records.old groups.old) }
{
    cleaning::clean_shapes(
        Rule::Spike,
        points,
        contours,
        shapes,
        next,
        prev,
        mark,
        out,
        records,
        groups,
    )
}
