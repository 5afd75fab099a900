// How large a job is, and how the picture is laid out around it.
ghost use Rattle.std.specs.Prelude.{◌≡◌, true, ◌++◌, ◌+◌, ◌≤◌, length};
ghost use Rattle.grid.specs.Domain.{count, Contour};
ghost use Rattle.grid.specs.Limits.{limit};
ghost use Rattle.grid.specs.Points.{on, points as points_of};
ghost use Rattle.report.specs.inside.Lines.{Put};
ghost use Rattle.picture.specs.Frame.{widened as widened_of, extent as extent-of, letter as letter_of, sizes as sizes-of};
ghost use Rattle.picture.specs.inside.Parts.{On, Small, opening, offset};

use crate::inner::words;
use grid::Point;
use report::inner::text;

// The corners of the smallest box along the axes that has every point.
#[derive(Clone, Copy)]
pub struct Extent {
    pub low: Point,
    pub high: Point,
}

// Its width and its height, and how high a letter is, in units.
#[derive(Clone, Copy)]
pub struct Sizes {
    pub width: u64,
    pub height: u64,
    pub letter: u64,
}

// One point more.
fn widened(e: Extent, p: Point) -> Extent
    requires { On e × (on limit p ≡ true) }
    ensures { result ≡ widened_of e p }
{
    let low = e.low;
    let high = e.high;
    let least = Point {
        x: low.x.min(p.x),
        y: low.y.min(p.y),
    };
    let most = Point {
        x: high.x.max(p.x),
        y: high.y.max(p.y),
    };
    Extent {
        low: least,
        high: most,
    }
}

// The extent of all points, and of none the origin.
pub fn extent_of(points: &[i32]) -> Extent
    requires { Contour points.now (count points.now) }
    ensures { (result ≡ extent-of (points_of points.now)) × On result }
{
    let n = points.len() / 2;
    if n == 0 {
        let origin = Point { x: 0, y: 0 };
        return Extent {
            low: origin,
            high: origin,
        };
    }
    let first = grid::inner::point_at(points, 0);
    let mut e = Extent {
        low: first,
        high: first,
    };
    for i in 1..n {
        e = widened(e, grid::inner::point_at(points, i));
    }
    e
}

// How high a letter is.
fn letter(width: u64, height: u64) -> u64
    ensures { result ≡ letter_of width height }
{
    width.max(height) / 40 + 1
}

// The sizes of an extent.
pub fn sizes_of(e: Extent) -> Sizes
    requires { On e }
    ensures { (result ≡ sizes-of e) × Small result }
{
    let across = grid::inner::between(e.low, e.high);
    let width = across.dx.unsigned_abs();
    let height = across.dy.unsigned_abs();
    Sizes {
        width,
        height,
        letter: letter(width, height),
    }
}

// Puts how far the job is moved, so that its upper left corner comes to the origin.
fn put_offset(text: &mut [u8], at: usize, e: Extent) -> usize
    requires { On e × (at + length (offset e) ≤ length text.old) }
    ensures { Put at (offset e) text.old result text.new }
{
    let low = e.low;
    let high = e.high;
    let corner = Point {
        x: low.x,
        y: high.y,
    };
    let origin = Point { x: 0, y: 0 };
    let by = grid::inner::between(corner, origin);
    let second = text::put_signed(text, at, by.dx);
    let third = text::put(text, second, b" ");
    text::put_signed(text, third, by.dy)
}

// Puts the beginning of a picture, up to its first shape.
pub fn put_opening(text: &mut [u8], e: Extent, s: Sizes) -> usize
    requires { On e × Small s × (length (opening e s) ≤ length text.old) }
    ensures { Put 0 (opening e s) text.old result text.new }
{
    let second = words::put_two(
        text,
        0,
        b"<svg xmlns=\"http://www.w3.org/2000/svg\" viewBox=\"0 0 ",
        s.width + 6 * s.letter,
        b" ",
        s.height + 8 * s.letter,
    );
    let third = words::put_two(
        text,
        second,
        b"\">\n<style>svg{background:#fff}path{fill:#d6e4f0;fill-rule:evenodd;stroke:#24557a;stroke-linejoin:round;vector-effect:non-scaling-stroke}.removed,.kept{stroke-linecap:round}.removed{stroke:#d3382c;stroke-width:6}.kept{stroke-width:3}.scale{stroke:#000;stroke-width:2}text{font-family:sans-serif}</style>\n<g transform=\"translate(",
        3 * s.letter,
        b" ",
        3 * s.letter,
    );
    let fourth = text::put(text, third, b") scale(1 -1) translate(");
    let fifth = put_offset(text, fourth, e);
    text::put(text, fifth, b")\">\n")
}
