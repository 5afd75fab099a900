// The corners of a contour, the edges that cross a point's horizontal, and those that have the point, of contours that
// no call refuses.
ghost use Rattle.std.specs.Prelude.{◌≡◌, true, false, ◌-◌, ◌<◌, ◌≤◌};
ghost use Rattle.grid.specs.Limits.{limit};
ghost use Rattle.grid.specs.Points.{at, on, points as points_of};
ghost use Rattle.grid.specs.Corners.{distinct_neighbours};
ghost use Rattle.replies.specs.Ladder.{first_of};
ghost use Rattle.grid.specs.Domain.{domain, Contour};
ghost use Rattle.grid.specs.inside.Edges.{Short};
ghost use Rattle.grid.specs.inside.Rows.{FirstOther};
ghost use Rattle.path.specs.Convex.{convex_distinct};
ghost use Rattle.path.specs.inside.Contains.{Across, Changing, before as before_of};
ghost use Rattle.path.specs.inside.Convex.{looked, one_sided};
ghost use Rattle.path.specs.inside.Locate.{under, Untouched};
ghost use Rattle.path.specs.Contains.{above, meets_right as meets_right_of, contained};
ghost use Rattle.path.specs.Locate.{amid as amid_of, on_edge, location as location_of};
ghost use Rattle.grid.specs.Edges.{between, turn as turn_of};

use crate::{BOUNDARY, INSIDE, OUTSIDE};
use grid::{Edge, Point};

// What the corners met so far have shown.
#[derive(Clone, Copy)]
struct Seen {
    left: bool,
    right: bool,
    reversed: bool,
}

// Whether what was seen, with the last corner, is one way and never back.
fn closes(seen: Seen, to: Edge, from: Edge) -> bool
    requires { Short limit to from }
    ensures { result ≡ one_sided (looked seen to from) }
{
    let turn = grid::inner::turn(to, from);
    let left = seen.left | (turn > 0);
    let right = seen.right | (turn < 0);
    let reversed = seen.reversed | grid::inner::reverses(to, from);
    !(left & right) & !reversed
}

// Whether the contour turns one way and never back. Its point at `first` is the first that differs from the last. Only
// where the way does not turn can an edge be still: it leads to an equal neighbour, and is passed over. Each branch ends
// by itself, since a common end takes LLVM three instructions a point more.
pub fn one_way(points: &[i32], n: usize, first: usize) -> bool
    requires { Contour points.now n × FirstOther points.now n first × (first < n) }
    ensures { result ≡ convex_distinct (distinct_neighbours (points_of points.now)) }
{
    let closing = grid::inner::edge_at(points, n - 1, first);
    let mut to = closing;
    let mut seen = Seen {
        left: false,
        right: false,
        reversed: false,
    };
    let mut kept: usize = 1;
    for i in first + 1..n {
        let from = grid::inner::edge_at(points, i - 1, i);
        let turn = grid::inner::turn(to, from);
        if turn > 0 {
            if seen.right {
                return false;
            }
            seen.left = true;
            to = from;
            kept += 1;
        } else if turn < 0 {
            if seen.left {
                return false;
            }
            seen.right = true;
            to = from;
            kept += 1;
        } else if !grid::still(from) {
            seen.reversed |= grid::inner::backward(to, from);
            to = from;
            kept += 1;
        }
    }
    kept <= 2 || closes(seen, to, closing)
}

// Whether a lies above p's horizontal.
fn lies_above(p: Point, a: Point) -> bool
    ensures { result ≡ above p a }
{
    p.y < a.y
}

// Whether the edge from l up to h meets p's horizontal to the right of p: along it and on to p the way turns left.
fn meets_right(p: Point, l: Point, h: Point) -> bool
    requires { (on limit p ≡ true) × (on limit l ≡ true) × (on limit h ≡ true) }
    ensures { result ≡ meets_right_of p l h }
{
    grid::inner::turns_left(grid::inner::between(l, h), grid::inner::between(h, p))
}

// The first position from i on whose point lies on the other side of p's horizontal than `up` says; n where there is none.
fn next_across(points: &[i32], n: usize, i: usize, p: Point, up: bool) -> usize
    requires { Contour points.now n × (i ≤ n) }
    ensures { Across points.now n i p up result }
{
    for here in i..n {
        if lies_above(p, grid::inner::point_at(points, here)) != up {
            return here;
        }
    }
    n
}

// The first position whose point lies on another side of p's horizontal than the last point; n where there is none. Each
// side has a call of its own, so that its loop compares with nothing but p.
fn first_across(points: &[i32], n: usize, p: Point) -> usize
    requires { Contour points.now n × (0 < n) }
    ensures { Across points.now n 0 p (above p (at points.now (n - 1))) result }
{
    if lies_above(p, grid::inner::point_at(points, n - 1)) {
        next_across(points, n, 0, p, true)
    } else {
        next_across(points, n, 0, p, false)
    }
}

// The position before i, around the contour.
fn before(n: usize, i: usize) -> usize
    requires { 0 < n }
    ensures { result ≡ before_of n i }
{
    if i == 0 { n - 1 } else { i - 1 }
}

// Whether an odd number of edges crosses p's horizontal to the right of p; the first that changes side leads from `from` to `to`.
fn parity_from(points: &[i32], n: usize, p: Point, from: usize, to: usize) -> bool
    requires { Contour points.now n × (on limit p ≡ true) × Changing points.now n p false from to }
    ensures { result ≡ contained p (points_of points.now) }
{
    let mut odd = false;
    let mut a = from;
    let mut i = to;
    while i < n {
        let start = grid::inner::point_at(points, a);
        let end = grid::inner::point_at(points, i);
        if lies_above(p, end) {
            odd ^= meets_right(p, start, end);
            i = next_across(points, n, i + 1, p, true);
            a = i - 1;
        } else {
            odd ^= meets_right(p, end, start);
            i = next_across(points, n, i + 1, p, false);
            a = i - 1;
        }
    }
    odd
}

// Whether an odd number of the closed contour's edges crosses p's horizontal to the right of p. It is made anew for each
// call, so that LLVM knows the count of four points and makes no loop of the search.
#[inline(always)]
fn parity(points: &[i32], n: usize, p: Point) -> bool
    requires { Contour points.now n × (0 < n) × (on limit p ≡ true) }
    ensures { result ≡ contained p (points_of points.now) }
{
    let first = first_across(points, n, p);
    first < n && parity_from(points, n, p, before(n, first), first)
}

// Whether a contour that no call refuses contains a point on the grid. It is handed on as a part, for which LLVM passes the
// row in registers.
pub fn holds(points: &[i32], p: Point) -> bool
    requires { (first_of (domain limit points.now) ≡ 0) × (on limit p ≡ true) }
    ensures { result ≡ contained p (points_of points.now) }
{
    let n = points.len() / 2;
    n != 0 && parity(&points[..2 * n], n, p)
}

// The parity of four points: most contours are boxes.
pub fn parity_of_four(points: &[i32], p: Point) -> bool
    requires { Contour points.now 4 × (on limit p ≡ true) }
    ensures { result ≡ contained p (points_of points.now) }
{
    parity(points, 4, p)
}

// Whether z lies from a to b, both included, whichever is the smaller.
fn amid(a: i32, b: i32, z: i32) -> bool
    ensures { result ≡ amid_of a b z }
{
    ((a <= z) & (z <= b)) | ((b <= z) & (z <= a))
}

// Whether p lies on the edge from a to b.
fn touches(p: Point, a: Point, b: Point) -> bool
    requires { (on limit p ≡ true) × (on limit a ≡ true) × (on limit b ≡ true) }
    ensures { result ≡ on_edge p a b }
{
    amid(a.y, b.y, p.y)
        && amid(a.x, b.x, p.x)
        && grid::inner::aligned(grid::inner::between(a, b), grid::inner::between(a, p))
}

// How the way along the edge from l up to h turns on to p: left where the edge meets p's horizontal to the right of p,
// and not at all where it meets p.
fn turn_on(p: Point, l: Point, h: Point) -> i32
    requires { (on limit p ≡ true) × (on limit l ≡ true) × (on limit h ≡ true) }
    ensures { result ≡ turn_of (between l h) (between h p) }
{
    grid::inner::turn(grid::inner::between(l, h), grid::inner::between(h, p))
}

// The first position from i on whose point does not lie below p's horizontal; n where there is none.
fn next_reached(points: &[i32], n: usize, i: usize, p: Point) -> usize
    requires { Contour points.now n × (i ≤ n) × (on limit p ≡ true) }
    ensures { Across points.now n i (under p) false result }
{
    next_across(points, n, i, Point { x: p.x, y: p.y - 1 }, false)
}

// The first position whose edge, from the point before it, may have p or change side; n where there is none.
fn first_met(points: &[i32], n: usize, p: Point) -> usize
    requires { Contour points.now n × (0 < n) × (on limit p ≡ true) }
    ensures { Untouched points.now n p false (before_of n result) result }
{
    let last = grid::inner::point_at(points, n - 1);
    if lies_above(p, last) {
        next_across(points, n, 0, p, true)
    } else if lies_above(last, p) {
        next_reached(points, n, 0, p)
    } else {
        0
    }
}

// Where p lies, once no edge up to position `from` has it, and the next that may leads from `from` to `to`. Of an edge
// that changes side one turn tells whether it has p and whether it counts.
fn location_from(points: &[i32], n: usize, p: Point, from: usize, to: usize) -> u8
    requires { Contour points.now n × (on limit p ≡ true) × Untouched points.now n p false from to }
    ensures { result ≡ location_of p (points_of points.now) }
{
    let mut odd = false;
    let mut a = from;
    let mut i = to;
    while i < n {
        let start = grid::inner::point_at(points, a);
        let end = grid::inner::point_at(points, i);
        if lies_above(p, end) {
            let turn = turn_on(p, start, end);
            if turn == 0 {
                return BOUNDARY;
            }
            odd ^= turn > 0;
            i = next_across(points, n, i + 1, p, true);
            a = i - 1;
        } else if lies_above(p, start) {
            let turn = turn_on(p, end, start);
            if turn == 0 {
                return BOUNDARY;
            }
            odd ^= turn > 0;
            i = next_reached(points, n, i + 1, p);
            a = i - 1;
        } else {
            if touches(p, start, end) {
                return BOUNDARY;
            }
            i = next_reached(points, n, i + 1, p);
            a = i - 1;
        }
    }
    if odd { INSIDE } else { OUTSIDE }
}

// Where p lies to a contour of n points. It is made anew for each call, as the parity is.
#[inline(always)]
fn location_among(points: &[i32], n: usize, p: Point) -> u8
    requires { Contour points.now n × (0 < n) × (on limit p ≡ true) }
    ensures { result ≡ location_of p (points_of points.now) }
{
    let first = first_met(points, n, p);
    if first < n {
        location_from(points, n, p, before(n, first), first)
    } else {
        OUTSIDE
    }
}

// Where a point on the grid lies to a contour that no call refuses.
pub fn location(points: &[i32], p: Point) -> u8
    requires { (first_of (domain limit points.now) ≡ 0) × (on limit p ≡ true) }
    ensures { result ≡ location_of p (points_of points.now) }
{
    let n = points.len() / 2;
    if n == 0 {
        return OUTSIDE;
    }
    location_among(points, n, p)
}

// The same of four points.
pub fn location_of_four(points: &[i32], p: Point) -> u8
    requires { Contour points.now 4 × (on limit p ≡ true) }
    ensures { result ≡ location_of p (points_of points.now) }
{
    location_among(points, 4, p)
}
