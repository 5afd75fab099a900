// Questions about one contour, and its cleaning.
ghost use Rattle.std.specs.Prelude.{◌≡◌};
ghost use Rattle.ring.specs.declared.Rule as R;
ghost use Rattle.area.specs.Answers.{doubled, half};
ghost use Rattle.path.specs.Convex.{convex};
ghost use Rattle.path.specs.Clockwise.{clockwise};
ghost use Rattle.path.specs.Contains.{contains};
ghost use Rattle.path.specs.Locate.{located};
ghost use Rattle.clean.specs.Verdicts.{simple, spike_free};
ghost use Rattle.clean.specs.Outcome.{lent, leaving, outcome};

use area::Area;
use clean::Cleaned;
use path::Located;
use replies::Verdict;

// The doubled area: counter-clockwise is positive.
#[unsafe(no_mangle)]
pub extern "C" fn ukm_area_two(points: &[i32]) -> Area
    ensures { result ≡ doubled points.now }
{
    ukmerelt::contours::ukm_area_two(points)
}

// The area, cut toward zero.
#[unsafe(no_mangle)]
pub extern "C" fn ukm_area(points: &[i32]) -> Area
    ensures { result ≡ half points.now }
{
    ukmerelt::contours::ukm_area(points)
}

// Whether all turns have one sign and no edge reverses, equal neighbours skipped.
#[unsafe(no_mangle)]
pub extern "C" fn ukm_is_convex(points: &[i32]) -> Verdict
    ensures { result ≡ convex points.now }
{
    ukmerelt::contours::ukm_is_convex(points)
}

// Whether the reported doubled area is at or below zero.
#[unsafe(no_mangle)]
pub extern "C" fn ukm_is_clockwise(points: &[i32]) -> Verdict
    ensures { result ≡ clockwise points.now }
{
    ukmerelt::contours::ukm_is_clockwise(points)
}

// Whether the contour contains the point x, y.
#[unsafe(no_mangle)]
pub extern "C" fn ukm_contains(points: &[i32], x: i32, y: i32) -> Verdict
    ensures { result ≡ contains points.now x y }
{
    ukmerelt::contours::ukm_contains(points, x, y)
}

// Where the point x, y lies: outside the contour, on its boundary or inside.
#[unsafe(no_mangle)]
pub extern "C" fn ukm_locate(points: &[i32], x: i32, y: i32) -> Located
    ensures { result ≡ located points.now x y }
{
    ukmerelt::contours::ukm_locate(points, x, y)
}

// Whether the contour has three or more points, and no vertex whose two edges have cross 0.
#[unsafe(no_mangle)]
pub extern "C" fn ukm_is_simple(points: &[i32]) -> Verdict
    ensures { result ≡ simple points.now }
{
    ukmerelt::contours::ukm_is_simple(points)
}

// Whether the contour has no spikes, equal neighbours aside.
#[unsafe(no_mangle)]
pub extern "C" fn ukm_has_no_spikes(points: &[i32]) -> Verdict
    ensures { result ≡ spike_free points.now }
{
    ukmerelt::contours::ukm_has_no_spikes(points)
}

// The contour without its collinear points.
#[unsafe(no_mangle)]
pub extern "C" fn ukm_simplified(
    points: &[i32],
    next: &mut [u32],
    prev: &mut [u32],
    mark: &mut [u8],
    out: &mut [i32],
) -> Cleaned
    ensures { leaving result (lent next.new prev.new mark.new out.new)
        ≡ outcome R.Rule.Collinear points.now
        (lent next.old prev.old mark.old out.old) }
{
    ukmerelt::contours::ukm_simplified(points, next, prev, mark, out)
}

// The contour without its spikes and its equal neighbours.
#[unsafe(no_mangle)]
pub extern "C" fn ukm_despiked(
    points: &[i32],
    next: &mut [u32],
    prev: &mut [u32],
    mark: &mut [u8],
    out: &mut [i32],
) -> Cleaned
    ensures { leaving result (lent next.new prev.new mark.new out.new)
        ≡ outcome R.Rule.Spike points.now
        (lent next.old prev.old mark.old out.old) }
{
    ukmerelt::contours::ukm_despiked(points, next, prev, mark, out)
}
