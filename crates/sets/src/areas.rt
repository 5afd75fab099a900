// The doubled and the halved area of a contour set.
ghost use Rattle.std.specs.Prelude.{◌≡◌};
ghost use Rattle.area.specs.Answers.{answered};
ghost use Rattle.sets.specs.Area.{doubled, half};

use crate::inner::sums;
use replies::Refusal;

// The doubled area: the sum of the contours' own.
pub fn area_two(points: &[i32], ranges: &[[usize; 2]]) -> Result<i64, Refusal>
    ensures { answered result ≡ doubled points.now ranges.now }
{
    buffer::contours::check(points, ranges)?;
    sums::total(points, ranges)
}

// The area, cut toward zero.
pub fn area(points: &[i32], ranges: &[[usize; 2]]) -> Result<i64, Refusal>
    ensures { answered result ≡ half points.now ranges.now }
{
    sums::halved(area_two(points, ranges))
}
