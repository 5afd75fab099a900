// The refusals of an addition.
ghost use Rattle.std.specs.Prelude.{◌≡◌};
ghost use Rattle.replies.specs.Ladder.{first_of};
ghost use Rattle.replies.specs.Refusals.{told};
ghost use Rattle.buffer.specs.Refusals.{both};

use grid::inner::bounds;
use replies::Refusal;

// What an addition asks of a set and of what is added to it, a number of both before the next number.
pub fn of_both(points: &[i32], more: &[i32], sound: bool) -> Result<(), Refusal>
    ensures { told result ≡ first_of (both points.now more.now sound) }
{
    if points.len() % 2 == 1 {
        return Err(Refusal::Odd);
    }
    if more.len() % 2 == 1 {
        return Err(Refusal::Odd);
    }
    if grid::MOST < points.len() / 2 + more.len() / 2 {
        return Err(Refusal::TooMany);
    }
    if !sound {
        return Err(Refusal::Ranges);
    }
    bounds::within(grid::LIMIT, points)?;
    bounds::within(grid::LIMIT, more)
}
