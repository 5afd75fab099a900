// The grid: its bounds, its points and edges, and the domain of a row of coordinates.
#![tactic(auto)]

pub mod inner;

ghost use Rattle.std.specs.Prelude.{◌≡◌};
ghost use Rattle.grid.specs.Limits.{limit};
ghost use Rattle.grid.specs.Points.{on};
ghost use Rattle.grid.specs.Edges.{still as still_of};
ghost use Rattle.replies.specs.Ladder.{first_of};
ghost use Rattle.replies.specs.Refusals.{told};
ghost use Rattle.grid.specs.Domain.{domain as domain_of};

use replies::Refusal;

// The largest coordinate, either side of 0.
pub const LIMIT: u32 = 1_073_741_823;

// The largest of a file of edition 1 and of a drawing in millimetres, which lie on the narrow grid.
pub const NARROW: u32 = 536_870_912;

// The most points of a contour or a set.
pub const MOST: usize = 65_536;

#[derive(Clone, Copy, PartialEq, Eq)]
pub struct Point {
    pub x: i32,
    pub y: i32,
}

// An edge: how far it goes in x and in y.
#[derive(Clone, Copy, PartialEq, Eq)]
pub struct Edge {
    pub dx: i64,
    pub dy: i64,
}

// Whether a point is on the grid.
pub fn point_on_grid(p: Point) -> bool
    ensures { result ≡ on limit p }
{
    inner::bounds::on_grid(LIMIT, p.x) & inner::bounds::on_grid(LIMIT, p.y)
}

// What every call asks of a row of coordinates: its first refusal, if any.
pub fn domain(points: &[i32]) -> Result<(), Refusal>
    ensures { told result ≡ first_of (domain_of limit points.now) }
{
    inner::bounds::domain(LIMIT, points)
}

// Whether an edge leads from a point to the same point.
pub fn still(u: Edge) -> bool
    ensures { result ≡ still_of u }
{
    u.dx == 0 && u.dy == 0
}
