// The vertices of a job: a path of dots for those that are removed, and one for those that are kept.
ghost use Rattle.std.specs.Prelude.{◌≡◌, true, ◌+◌, ◌*◌, ◌≤◌, length};
ghost use Rattle.grid.specs.Limits.{limit, all_on_grid};
ghost use Rattle.grid.specs.Points.{points as points_of};
ghost use Rattle.report.specs.inside.Lines.{Put};
ghost use Rattle.vertices.specs.Vertices.{vertices as vertices_of, job_vertices};
ghost use Rattle.vertices.specs.inside.Marks.{survive, Marked};
ghost use Rattle.picture.specs.Picture.{all_spots};
ghost use Rattle.picture.specs.inside.Parts.{Dotted};

use crate::POINTS;
use report::inner::text;
use vertices::inner::{dots, settling};

// Puts both paths, by the marks of the points.
fn put_marked(text: &mut [u8], at: usize, points: &[i32], mark: &[u8]) -> usize
    requires points_value { (all_on_grid limit points.now ≡ true)
        × (length points.now ≡ 2 * length mark.now) }
    requires points_in_bounds { at + length (all_spots (vertices_of (survive mark.now) (points_of points.now)))
        ≤ length text.old }
    ensures { Put at (all_spots (vertices_of (survive mark.now) (points_of points.now)))
        text.old result text.new }
{
    let second = text::put(text, at, b"<path class=\"removed\" d=\"");
    let third = dots::put(text, second, false, points, mark);
    let fourth = text::put(text, third, b"\"/>\n<path class=\"kept\" d=\"");
    let fifth = dots::put(text, fourth, true, points, mark);
    text::put(text, fifth, b"\"/>\n")
}

// Cleans each of a file's n contours, which have these points, by itself, and puts both paths.
fn put_settled(
    second: bool,
    bytes: &[u8],
    n: usize,
    points: &[i32],
    next: &mut [u32],
    prev: &mut [u32],
    mark: &mut [u8],
    text: &mut [u8],
    at: usize,
) -> usize
    requires dotted { Dotted second bytes.now n points.now
        × Marked points.now next.old prev.old mark.old }
    requires bytes_in_bounds { at + length (all_spots (job_vertices bytes.now)) ≤ length text.old }
    ensures { Put at (all_spots (job_vertices bytes.now)) text.old result text.new }
{
    settling::settle_all(second, bytes, n, points, next, prev, mark);
    put_marked(text, at, points, mark)
}

// The same, with rows of its own.
pub fn put(
    second: bool,
    bytes: &[u8],
    n: usize,
    points: &[i32],
    text: &mut [u8],
    at: usize,
) -> usize
    requires dotted { Dotted second bytes.now n points.now }
    requires bytes_in_bounds { at + length (all_spots (job_vertices bytes.now)) ≤ length text.old }
    ensures { Put at (all_spots (job_vertices bytes.now)) text.old result text.new }
{
    let mut next = [0u32; POINTS];
    let mut prev = [0u32; POINTS];
    let mut mark = [0u8; POINTS];
    let many = points.len() / 2;
    put_settled(
        second,
        bytes,
        n,
        points,
        &mut next,
        &mut prev,
        &mut mark[..many],
        text,
        at,
    )
}
