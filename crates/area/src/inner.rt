// The doubled area of a contour that is not refused, one product a point.
ghost use Rattle.std.specs.Prelude.{◌≡◌, ◌*◌, ◌<◌, true, ◌*ℤ◌};
ghost use Rattle.integers.specs.Bound.{In};
ghost use Rattle.grid.specs.Limits.{limit, on_grid};
ghost use Rattle.grid.specs.Points.{points as points_of};
ghost use Rattle.grid.specs.Area.{reported};
ghost use Rattle.replies.specs.Ladder.{first_of};
ghost use Rattle.grid.specs.Domain.{Contour};
ghost use Rattle.grid.specs.inside.Rows.{Vertices};
ghost use Rattle.area.specs.Answers.{refusals};
ghost use Rattle.area.specs.Shares.{share as share_of};

// A coordinate times how far another goes.
fn product(x: i32, dy: i64) -> i64
    requires { (on_grid limit x ≡ true) × In (2 * limit) dy }
    ensures { result ≡ x *ℤ dy }
{
    i64::from(x) * dy
}

// The x of a position, times how far y goes from the position before it to the one after it.
fn share(points: &[i32], before: usize, here: usize, after: usize) -> i64
    requires { Vertices points.now before here after }
    ensures { result ≡ share_of points.now before here after }
{
    let at = grid::inner::point_at(points, here);
    let across = grid::inner::edge_at(points, before, after);
    product(at.x, across.dy)
}

// The doubled area of a contour of n points, modulo 2^64: the shares of all positions add up to it.
fn total(points: &[i32], n: usize) -> i64
    requires { Contour points.now n × (0 < n) }
    ensures { result ≡ reported (points_of points.now) }
{
    if n < 3 {
        return 0;
    }
    let mut sum = share(points, n - 1, 0, 1).wrapping_add(share(points, n - 2, n - 1, 0));
    for i in (0..n - 2).rev() {
        sum = sum.wrapping_add(share(points, i, i + 1, i + 2));
    }
    sum
}

// The doubled area of a contour that is not refused.
pub fn doubled_area(points: &[i32]) -> i64
    requires { first_of (refusals points.now) ≡ 0 }
    ensures { result ≡ reported (points_of points.now) }
{
    total(points, points.len() / 2)
}
