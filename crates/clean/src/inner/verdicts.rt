// Whether a contour that no call refuses is simple, and whether it has no spikes.
ghost use Rattle.std.specs.Prelude.{◌≡◌};
ghost use Rattle.grid.specs.Limits.{limit};
ghost use Rattle.grid.specs.Points.{points as points_of};
ghost use Rattle.replies.specs.Ladder.{first_of};
ghost use Rattle.grid.specs.Domain.{domain};
ghost use Rattle.clean.specs.Verdicts.{is_simple, no_spikes, passes as passes_of};

use crate::inner::look;
use ring::Rule;

// Whether it has three or more points, and no vertex whose two edges have cross 0.
pub fn all_turn(points: &[i32]) -> bool
    requires { first_of (domain limit points.now) ≡ 0 }
    ensures { result ≡ is_simple (points_of points.now) }
{
    let n = points.len() / 2;
    if n < 3 {
        return false;
    }
    ring::inner::standing_by(true, points, n) == n
}

// Whether it has three or more points, and no spike, equal neighbours aside.
pub fn no_spikes(points: &[i32]) -> bool
    requires { first_of (domain limit points.now) ≡ 0 }
    ensures { result ≡ no_spikes (points_of points.now) }
{
    let n = points.len() / 2;
    if n < 3 {
        return false;
    }
    look::none_reverses(points, n)
}

// Whether it passes the verdict that goes with a rule. Most contours are boxes, which pass both. It is made anew for each
// call, so that the rule is known there.
#[inline(always)]
pub fn passes(rule: Rule, points: &[i32]) -> bool
    requires { first_of (domain limit points.now) ≡ 0 }
    ensures { result ≡ passes_of rule (points_of points.now) }
{
    if grid::inner::boxes::is_box(points, points.len() / 2) {
        return true;
    }
    match rule {
        Rule::Collinear => all_turn(points),
        Rule::Spike => no_spikes(points),
    }
}
