// Questions about one contour, and its cleaning.
ghost use Rattle.std.specs.Prelude.{◌≡◌};
ghost use Rattle.ring.specs.declared.Rule as R;
ghost use Rattle.area.specs.Answers.{doubled, half};
ghost use Rattle.path.specs.Convex.{convex};
ghost use Rattle.path.specs.Clockwise.{clockwise};
ghost use Rattle.path.specs.Contains.{contains};
ghost use Rattle.path.specs.Locate.{located};
ghost use Rattle.clean.specs.Verdicts.{simple, spike_free};
ghost use Rattle.clean.specs.Outcome.{lent, leaving, outcome};

use area::Area;
use clean::Cleaned;
use path::Located;
use replies::Verdict;

// The doubled area: counter-clockwise is positive.
pub fn ukm_area_two(points: &[i32]) -> Area
    ensures { result ≡ doubled points.now }
{
    Area::from(area::area_two(points))
}

// The area, cut toward zero.
pub fn ukm_area(points: &[i32]) -> Area
    ensures { result ≡ half points.now }
{
    Area::from(area::area(points))
}

// Whether all turns have one sign and no edge reverses, equal neighbours skipped.
pub fn ukm_is_convex(points: &[i32]) -> Verdict
    ensures { result ≡ convex points.now }
{
    Verdict::from(path::is_convex(points))
}

// Whether the reported doubled area is at or below zero.
pub fn ukm_is_clockwise(points: &[i32]) -> Verdict
    ensures { result ≡ clockwise points.now }
{
    Verdict::from(path::is_clockwise_ordered(points))
}

// Whether the contour contains the point x, y.
pub fn ukm_contains(points: &[i32], x: i32, y: i32) -> Verdict
    ensures { result ≡ contains points.now x y }
{
    Verdict::from(path::contains_point(points, x, y))
}

// Where the point x, y lies: outside the contour, on its boundary or inside.
pub fn ukm_locate(points: &[i32], x: i32, y: i32) -> Located
    ensures { result ≡ located points.now x y }
{
    Located::from(path::locate(points, x, y))
}

// Whether the contour has three or more points, and no vertex whose two edges have cross 0.
pub fn ukm_is_simple(points: &[i32]) -> Verdict
    ensures { result ≡ simple points.now }
{
    Verdict::from(clean::simple::is_simple(points))
}

// Whether the contour has no spikes, equal neighbours aside.
pub fn ukm_has_no_spikes(points: &[i32]) -> Verdict
    ensures { result ≡ spike_free points.now }
{
    Verdict::from(clean::despike::has_no_spikes(points))
}

// The contour without its collinear points.
pub fn ukm_simplified(
    points: &[i32],
    next: &mut [u32],
    prev: &mut [u32],
    mark: &mut [u8],
    out: &mut [i32],
) -> Cleaned
    ensures { leaving result (lent next.new prev.new mark.new out.new)
        ≡ outcome R.Rule.Collinear points.now
        (lent next.old prev.old mark.old out.old) }
{
    Cleaned::from(clean::simple::simplified(points, next, prev, mark, out))
}

// The contour without its spikes and its equal neighbours.
pub fn ukm_despiked(
    points: &[i32],
    next: &mut [u32],
    prev: &mut [u32],
    mark: &mut [u8],
    out: &mut [i32],
) -> Cleaned
    ensures { leaving result (lent next.new prev.new mark.new out.new)
        ≡ outcome R.Rule.Spike points.now
        (lent next.old prev.old mark.old out.old) }
{
    Cleaned::from(clean::despike::despiked(points, next, prev, mark, out))
}
