// The doubled and the halved area of a contour.
#![tactic(auto)]

mod answer;
pub mod inner;

ghost use Rattle.std.specs.Prelude.{◌≡◌};
ghost use Rattle.replies.specs.Ladder.{first_of};
ghost use Rattle.replies.specs.Refusals.{told};
ghost use Rattle.area.specs.Answers.{refusals, answered, doubled, half};

pub use answer::Area;
use replies::Refusal;

// What an area asks of a contour: its first refusal, if any. It is made anew for each call, since on boxes a call costs as
// much as the test.
#[inline(always)]
pub fn check(points: &[i32]) -> Result<(), Refusal>
    ensures { told result ≡ first_of (refusals points.now) }
{
    grid::domain(points)?;
    if points.len() / 2 == 0 {
        return Err(Refusal::Empty);
    }
    Ok(())
}

// The doubled area: counter-clockwise is positive.
pub fn area_two(points: &[i32]) -> Result<i64, Refusal>
    ensures { answered result ≡ doubled points.now }
{
    check(points)?;
    Ok(inner::doubled_area(points))
}

// The area, cut toward zero.
pub fn area(points: &[i32]) -> Result<i64, Refusal>
    ensures { answered result ≡ half points.now }
{
    check(points)?;
    Ok(inner::doubled_area(points) / 2)
}
