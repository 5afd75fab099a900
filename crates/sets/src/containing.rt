// Whether a shape has a point.
ghost use Rattle.std.specs.Prelude.{◌≡◌};
ghost use Rattle.replies.specs.Verdicts.{answered};
ghost use Rattle.buffer.specs.Sets.{contours};
ghost use Rattle.sets.specs.Contains.{in_shape};

use crate::inner::containing;
use grid::Point;
use replies::Refusal;

// Whether the shape has the point x, y: inside its first contour or on it, and inside no later one.
pub fn in_shape(points: &[i32], ranges: &[[usize; 2]], x: i32, y: i32) -> Result<bool, Refusal>
    ensures { answered result ≡ in_shape points.now ranges.now x y }
{
    buffer::contours::check(points, ranges)?;
    let p = Point { x, y };
    if !grid::point_on_grid(p) {
        return Err(Refusal::OffGrid);
    }
    Ok(containing::has(points, ranges, p))
}
