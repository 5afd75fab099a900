// The dots of vertices, put into a row that has room for them.
ghost use Rattle.std.specs.Prelude.{◌≡◌, true, false, [], ◌+◌, ◌*◌, ◌≤◌, length};
ghost use Rattle.grid.specs.Limits.{limit, all_on_grid};
ghost use Rattle.grid.specs.Points.{on, points as points_of};
ghost use Rattle.report.specs.inside.Lines.{Put};
ghost use Rattle.vertices.specs.Vertices.{dot, dot_if, dots, vertices};
ghost use Rattle.vertices.specs.inside.Marks.{survive};

use crate::inner::REMOVED;
use grid::Point;
use report::inner::text;

// Puts the dot of a point.
fn put_dot(text: &mut [u8], at: usize, p: Point) -> usize
    requires { (on limit p ≡ true) × (at + length (dot p) ≤ length text.old) }
    ensures { Put at (dot p) text.old result text.new }
{
    let second = text::put(text, at, b"M");
    let third = text::put_signed(text, second, i64::from(p.x));
    let fourth = text::put(text, third, b" ");
    let fifth = text::put_signed(text, fourth, i64::from(p.y));
    text::put(text, fifth, b"h0")
}

// Puts it if the vertex is one of those that are asked for, the kept ones or the others.
fn put_vertex(text: &mut [u8], at: usize, kept: bool, p: Point, stays: bool) -> usize
    requires { (on limit p ≡ true)
        × (at + length (dot_if kept (record { point = p; stays = stays })) ≤ length text.old) }
    ensures { Put at (dot_if kept (record { point = p; stays = stays }))
        text.old result text.new }
{
    if kept == stays {
        put_dot(text, at, p)
    } else {
        at
    }
}

// Puts the dots of the kept points, or of the others, by their marks.
pub fn put(text: &mut [u8], from: usize, kept: bool, points: &[i32], mark: &[u8]) -> usize
    requires points_value { (all_on_grid limit points.now ≡ true)
        × (length points.now ≡ 2 * length mark.now) }
    requires points_in_bounds { from + length (dots kept (vertices (survive mark.now) (points_of points.now)))
        ≤ length text.old }
    ensures { Put from (dots kept (vertices (survive mark.now) (points_of points.now)))
        text.old result text.new }
{
    let mut behind = from;
    for (i, &m) in mark.iter().enumerate() {
        let p = grid::inner::point_at(points, i);
        behind = put_vertex(text, behind, kept, p, m < REMOVED);
    }
    behind
}
