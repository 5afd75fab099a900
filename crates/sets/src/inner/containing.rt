// Whether a shape that is not refused has a point.
ghost use Rattle.std.specs.Prelude.{◌≡◌, ◌<◌, [], length, drop, slice_index_or};
ghost use Rattle.grid.specs.Points.{points as points_of};
ghost use Rattle.path.specs.Locate.{location as location_of};
ghost use Rattle.buffer.specs.Spans.{span, spans};
ghost use Rattle.buffer.specs.Sets.{contour, contours};
ghost use Rattle.sets.specs.inside.Asked.{Asked};
ghost use Rattle.sets.specs.Contains.{inside_none, has as has_point};

use buffer::inner::parts;
use grid::Point;

// Where the point lies to contour number k.
fn location(points: &[i32], ranges: &[[usize; 2]], k: usize, p: Point) -> u8
    requires { Asked points.now ranges.now p × (k < length ranges.now) }
    ensures { result ≡ location_of p (points_of (contour points.now (span (slice_index_or ranges.now k [])))) }
{
    path::inner::location(parts::named(points, ranges, k), p)
}

// Whether the point lies inside no contour after the first.
fn inside_no_later(points: &[i32], ranges: &[[usize; 2]], p: Point) -> bool
    requires { Asked points.now ranges.now p }
    ensures { result ≡ inside_none p (drop 1 (contours points.now (spans ranges.now))) }
{
    (1..ranges.len()).all(|i| location(points, ranges, i, p) != path::INSIDE)
}

// Whether the point lies inside the first contour or on its boundary, and inside no later one.
pub fn has(points: &[i32], ranges: &[[usize; 2]], p: Point) -> bool
    requires { Asked points.now ranges.now p }
    ensures { result ≡ has_point p (contours points.now (spans ranges.now)) }
{
    if ranges.is_empty() {
        return false;
    }
    location(points, ranges, 0, p) != path::OUTSIDE && inside_no_later(points, ranges, p)
}
