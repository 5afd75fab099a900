// Whether a contour is convex, wound clockwise, or contains a point, and where a point lies.
#![tactic(auto)]

pub mod inner;

ghost use Rattle.std.specs.Prelude.{◌≡◌};
ghost use Rattle.path.specs.Convex.{convex as convex_verdict};
ghost use Rattle.path.specs.Clockwise.{clockwise};
ghost use Rattle.replies.specs.Ladder.{first_of};
ghost use Rattle.replies.specs.Refusals.{told};
ghost use Rattle.replies.specs.Verdicts.{answered};
ghost use Rattle.path.specs.Contains.{refusals, contains as contains_verdict};
ghost use Rattle.path.specs.Locate.{answered as place_answered, located};

use grid::Point;
use replies::Refusal;
pub use replies::Verdict;

pub const OUTSIDE: u8 = 0;

pub const BOUNDARY: u8 = 1;

pub const INSIDE: u8 = 2;

// Where a point lies: the reply number, and one of the three places, OUTSIDE where it is refused.
#[repr(C)]
#[derive(Clone, Copy)]
pub struct Located {
    pub reply: u32,
    pub place: u8,
}

impl From<Result<u8, Refusal>> for Located {
    ghost from_gives = { λ answer told. told ≡ place_answered answer };

    fn from(answer: Result<u8, Refusal>) -> Located {
        match answer {
            Ok(place) => Located { reply: 0, place },
            Err(refusal) => Located {
                reply: refusal.number(),
                place: OUTSIDE,
            },
        }
    }
}

// Whether all turns have one sign and no edge reverses, equal neighbours skipped. A box turns one way.
pub fn is_convex(points: &[i32]) -> Result<bool, Refusal>
    ensures { answered result ≡ convex_verdict points.now }
{
    grid::domain(points)?;
    let n = points.len() / 2;
    if n <= 2 {
        return Ok(true);
    }
    let first = grid::inner::first_other(points, n);
    if first == n {
        return Ok(true);
    }
    if grid::inner::boxes::is_box(points, n) {
        return Ok(true);
    }
    Ok(inner::one_way(points, n, first))
}

// Whether the reported doubled area is at or below zero.
pub fn is_clockwise_ordered(points: &[i32]) -> Result<bool, Refusal>
    ensures { answered result ≡ clockwise points.now }
{
    area::check(points)?;
    Ok(area::inner::doubled_area(points) <= 0)
}

// The contour's domain, and then the asked point's. It is made anew for each call, since on boxes a call costs as much as
// the test.
#[inline(always)]
fn check(points: &[i32], p: Point) -> Result<(), Refusal>
    ensures { told result ≡ first_of (refusals p points.now) }
{
    grid::domain(points)?;
    if !grid::point_on_grid(p) {
        return Err(Refusal::OffGrid);
    }
    Ok(())
}

// Whether the contour contains the point x, y.
pub fn contains_point(points: &[i32], x: i32, y: i32) -> Result<bool, Refusal>
    ensures { answered result ≡ contains_verdict points.now x y }
{
    let p = Point { x, y };
    check(points, p)?;
    if points.len() == 8 {
        return Ok(inner::parity_of_four(points, p));
    }
    Ok(inner::holds(points, p))
}

// Where the point x, y lies: outside the contour, on its boundary or inside.
pub fn locate(points: &[i32], x: i32, y: i32) -> Result<u8, Refusal>
    ensures { place_answered result ≡ located points.now x y }
{
    let p = Point { x, y };
    check(points, p)?;
    if points.len() == 8 {
        return Ok(inner::location_of_four(points, p));
    }
    Ok(inner::location(points, p))
}
