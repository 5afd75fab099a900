// Questions about a shape set: points, the ranges of its contours, and the ranges of its shapes.
ghost use Rattle.std.specs.Prelude.{◌≡◌};
ghost use Rattle.sets.specs.Area.{shapes_doubled, shapes_half};
ghost use Rattle.sets.specs.Verdicts.{shapes_simple, shapes_spike_free};

use area::Area;
use replies::Verdict;

// Whether every contour of the set is simple.
pub fn ukm_shapes_is_simple(
    points: &[i32],
    contours: &[[usize; 2]],
    shapes: &[[usize; 2]],
) -> Verdict
    ensures { result ≡ shapes_simple points.now contours.now shapes.now }
{
    Verdict::from(sets::shapes::is_simple(points, contours, shapes))
}

// Whether no contour of the set has spikes.
pub fn ukm_shapes_has_no_spikes(
    points: &[i32],
    contours: &[[usize; 2]],
    shapes: &[[usize; 2]],
) -> Verdict
    ensures { result ≡ shapes_spike_free points.now contours.now shapes.now }
{
    Verdict::from(sets::shapes::has_no_spikes(points, contours, shapes))
}

// The doubled area: the sum of the contours' own.
pub fn ukm_shapes_area_two(points: &[i32], contours: &[[usize; 2]], shapes: &[[usize; 2]]) -> Area
    ensures { result ≡ shapes_doubled points.now contours.now shapes.now }
{
    Area::from(sets::shapes::area_two(points, contours, shapes))
}

// The area, cut toward zero.
pub fn ukm_shapes_area(points: &[i32], contours: &[[usize; 2]], shapes: &[[usize; 2]]) -> Area
    ensures { result ≡ shapes_half points.now contours.now shapes.now }
{
    Area::from(sets::shapes::area(points, contours, shapes))
}
