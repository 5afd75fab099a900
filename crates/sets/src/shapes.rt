// Questions about a shape set: those about its contours, once its contour ranges and its shape ranges are sound.
ghost use Rattle.std.specs.Prelude.{◌≡◌};
ghost use Rattle.area.specs.Answers.{answered};
ghost use Rattle.replies.specs.Verdicts.{answered as verdict_answered};
ghost use Rattle.buffer.specs.Spans.{spans};
ghost use Rattle.buffer.specs.Sets.{contours as contours_of};
ghost use Rattle.buffer.specs.Shapes.{refusals};
ghost use Rattle.sets.specs.Verdicts.{verdict_by, shapes_simple, shapes_spike_free};
ghost use Rattle.sets.specs.Area.{shapes_doubled, shapes_half};

use crate::inner::{passing, sums};
use replies::Refusal;
use ring::Rule;

// Whether every contour passes the verdict that goes with a rule.
fn verdict(
    rule: Rule,
    points: &[i32],
    contours: &[[usize; 2]],
    shapes: &[[usize; 2]],
) -> Result<bool, Refusal>
    ensures { verdict_answered result ≡ verdict_by rule (refusals points.now contours.now shapes.now)
        (contours_of points.now (spans contours.now)) }
{
    buffer::shapes::check(points, contours, shapes)?;
    Ok(passing::all_pass(rule, points, contours))
}

// Whether every contour of the set is simple.
pub fn is_simple(
    points: &[i32],
    contours: &[[usize; 2]],
    shapes: &[[usize; 2]],
) -> Result<bool, Refusal>
    ensures { verdict_answered result ≡ shapes_simple points.now contours.now shapes.now }
{
    verdict(Rule::Collinear, points, contours, shapes)
}

// Whether no contour of the set has spikes.
pub fn has_no_spikes(
    points: &[i32],
    contours: &[[usize; 2]],
    shapes: &[[usize; 2]],
) -> Result<bool, Refusal>
    ensures { verdict_answered result ≡ shapes_spike_free points.now contours.now shapes.now }
{
    verdict(Rule::Spike, points, contours, shapes)
}

// The doubled area: the sum of the contours' own.
pub fn area_two(
    points: &[i32],
    contours: &[[usize; 2]],
    shapes: &[[usize; 2]],
) -> Result<i64, Refusal>
    ensures { answered result ≡ shapes_doubled points.now contours.now shapes.now }
{
    buffer::shapes::check(points, contours, shapes)?;
    sums::total(points, contours)
}

// The area, cut toward zero.
pub fn area(points: &[i32], contours: &[[usize; 2]], shapes: &[[usize; 2]]) -> Result<i64, Refusal>
    ensures { answered result ≡ shapes_half points.now contours.now shapes.now }
{
    sums::halved(area_two(points, contours, shapes))
}
