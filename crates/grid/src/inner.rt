// The points and edges of a row on the grid, and how the way goes on from one edge to the next.
pub mod bounds;
pub mod boxes;

ghost use Rattle.std.specs.Prelude.{◌≡◌, ◌+◌, ◌*◌, ◌<◌, true, length, ◌-ℤ◌};
ghost use Rattle.grid.specs.Limits.{limit, on_grid, all_on_grid};
ghost use Rattle.grid.specs.Points.{at, on};
ghost use Rattle.grid.specs.Edges.{between as between_of, cross as cross_of, dot as dot_of, sign as sign_of, turn as turn_of, turns_left as turns_left_of, aligned as aligned_of, backward as backward_of, reverses as reverses_of};
ghost use Rattle.grid.specs.Domain.{Contour};
ghost use Rattle.grid.specs.inside.Edges.{Short};
ghost use Rattle.grid.specs.inside.Rows.{FirstOther};

use crate::{Edge, Point};

// The point at position i of a row.
pub fn point_at(points: &[i32], i: usize) -> Point
    requires { 2 * i + 1 < length points.now }
    ensures { result ≡ at points.now i }
{
    Point {
        x: points[2 * i],
        y: points[2 * i + 1],
    }
}

// From one coordinate to another.
fn gap(from: i32, to: i32) -> i64
    requires { (on_grid limit from ≡ true) × (on_grid limit to ≡ true) }
    ensures { result ≡ to -ℤ from }
{
    i64::from(to) - i64::from(from)
}

// The edge from a to b.
pub fn between(a: Point, b: Point) -> Edge
    requires { (on limit a ≡ true) × (on limit b ≡ true) }
    ensures { result ≡ between_of a b }
{
    Edge {
        dx: gap(a.x, b.x),
        dy: gap(a.y, b.y),
    }
}

// The edge from position a of a row to position b.
pub fn edge_at(points: &[i32], a: usize, b: usize) -> Edge
    requires { (all_on_grid limit points.now ≡ true)
        × (2 * a + 1 < length points.now)
        × (2 * b + 1 < length points.now) }
    ensures { result ≡ between_of (at points.now a) (at points.now b) }
{
    between(point_at(points, a), point_at(points, b))
}

// The cross of two edges: every turn is told by it.
fn cross(u: Edge, v: Edge) -> i64
    requires { Short limit u v }
    ensures { result ≡ cross_of u v }
{
    u.dx * v.dy - u.dy * v.dx
}

// Their dot, which tells straight on from back.
fn dot(u: Edge, v: Edge) -> i64
    requires { Short limit u v }
    ensures { result ≡ dot_of u v }
{
    u.dx * v.dx + u.dy * v.dy
}

// -1, 0 or 1, as z is below, at or above 0.
fn sign(z: i64) -> i32
    ensures { result ≡ sign_of z }
{
    z.signum() as i32
}

// How the way turns from one edge to the next: 1 left, 0 straight on or back, -1 right.
pub fn turn(u: Edge, v: Edge) -> i32
    requires { Short limit u v }
    ensures { result ≡ turn_of u v }
{
    sign(cross(u, v))
}

// Whether it turns left.
pub fn turns_left(u: Edge, v: Edge) -> bool
    requires { Short limit u v }
    ensures { result ≡ turns_left_of u v }
{
    0 < cross(u, v)
}

// Whether two edges have cross 0.
pub fn aligned(u: Edge, v: Edge) -> bool
    requires { Short limit u v }
    ensures { result ≡ aligned_of u v }
{
    cross(u, v) == 0
}

// Whether they have a dot below 0.
pub fn backward(u: Edge, v: Edge) -> bool
    requires { Short limit u v }
    ensures { result ≡ backward_of u v }
{
    dot(u, v) < 0
}

// Whether they have cross 0 and a dot below 0.
pub fn reverses(u: Edge, v: Edge) -> bool
    requires { Short limit u v }
    ensures { result ≡ reverses_of u v }
{
    aligned(u, v) && backward(u, v)
}

// The first position whose point differs from the last point; n where all are equal.
pub fn first_other(points: &[i32], n: usize) -> usize
    requires { Contour points.now n × (0 < n) }
    ensures { FirstOther points.now n result }
{
    let last = point_at(points, n - 1);
    (0..n).find(|i| point_at(points, *i) != last).unwrap_or(n)
}
