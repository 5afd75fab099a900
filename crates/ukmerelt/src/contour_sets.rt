// Questions about a contour set: points, and the ranges of its contours.
ghost use Rattle.std.specs.Prelude.{◌≡◌};
ghost use Rattle.buffer.specs.Spans.{sound};
ghost use Rattle.sets.specs.Area.{doubled, half};
ghost use Rattle.sets.specs.Contains.{in_shape};
ghost use Rattle.sets.specs.Verdicts.{simple, spike_free};

use area::Area;
use buffer::ranges::Span;
use replies::Verdict;

// Whether the ranges name parts from 0 to the count, one behind the other.
pub fn ukm_ranges_sound(ranges: &[Span], count: usize) -> bool
    ensures { result ≡ sound ranges.now count }
{
    buffer::ranges::sound_spans(ranges, count)
}

// Whether every contour of the set is simple.
pub fn ukm_set_is_simple(points: &[i32], ranges: &[[usize; 2]]) -> Verdict
    ensures { result ≡ simple points.now ranges.now }
{
    Verdict::from(sets::simple::is_simple(points, ranges))
}

// Whether no contour of the set has spikes.
pub fn ukm_set_has_no_spikes(points: &[i32], ranges: &[[usize; 2]]) -> Verdict
    ensures { result ≡ spike_free points.now ranges.now }
{
    Verdict::from(sets::despike::has_no_spikes(points, ranges))
}

// The doubled area: the sum of the contours' own.
pub fn ukm_set_area_two(points: &[i32], ranges: &[[usize; 2]]) -> Area
    ensures { result ≡ doubled points.now ranges.now }
{
    Area::from(sets::areas::area_two(points, ranges))
}

// The area, cut toward zero.
pub fn ukm_set_area(points: &[i32], ranges: &[[usize; 2]]) -> Area
    ensures { result ≡ half points.now ranges.now }
{
    Area::from(sets::areas::area(points, ranges))
}

// Whether the shape has the point x, y: inside its first contour or on it, and inside no later one.
pub fn ukm_in_shape(points: &[i32], ranges: &[[usize; 2]], x: i32, y: i32) -> Verdict
    ensures { result ≡ in_shape points.now ranges.now x y }
{
    Verdict::from(sets::in_shape(points, ranges, x, y))
}
