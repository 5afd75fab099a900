// The refusals of a set within a bound that is at most the limit.
ghost use Rattle.std.specs.Prelude.{◌≡◌, ◌&&◌, ◌≤◌, length};
ghost use Rattle.replies.specs.Ladder.{first_of};
ghost use Rattle.replies.specs.Refusals.{told};
ghost use Rattle.grid.specs.Limits.{limit};
ghost use Rattle.grid.specs.Domain.{count};
ghost use Rattle.buffer.specs.Spans.{spans, sound as sound_of};
ghost use Rattle.buffer.specs.Refusals.{set};

use crate::ranges;
use grid::inner::bounds;
use replies::Refusal;

// What every call asks of a set, whose ranges are sound or not: its first refusal, if any.
pub fn of_set(bound: u32, points: &[i32], sound: bool) -> Result<(), Refusal>
    requires { bound ≤ limit }
    ensures { told result ≡ first_of (set bound points.now sound) }
{
    bounds::size(points)?;
    if !sound {
        return Err(Refusal::Ranges);
    }
    bounds::within(bound, points)
}

// Of a contour set.
pub fn contours(bound: u32, points: &[i32], ranges: &[[usize; 2]]) -> Result<(), Refusal>
    requires { bound ≤ limit }
    ensures { told result ≡ first_of (set bound points.now
        (sound_of (spans ranges.now) (count points.now))) }
{
    of_set(bound, points, ranges::sound(ranges, points.len() / 2))
}

// Of a shape set.
pub fn shapes(
    bound: u32,
    points: &[i32],
    contours: &[[usize; 2]],
    shapes: &[[usize; 2]],
) -> Result<(), Refusal>
    requires { bound ≤ limit }
    ensures { told result ≡ first_of (set bound points.now
        (sound_of (spans contours.now) (count points.now)
        && sound_of (spans shapes.now) (length contours.now))) }
{
    let sound = ranges::sound(contours, points.len() / 2) & ranges::sound(shapes, contours.len());
    of_set(bound, points, sound)
}
