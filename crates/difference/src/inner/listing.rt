// The listing of two sets that are not refused, line by line.
ghost use Rattle.std.specs.Prelude.{◌≡◌, ◌<◌, max, [], length, get_or};
ghost use Rattle.rows.specs.Rows.{front};
ghost use Rattle.buffer.specs.Spans.{spans};
ghost use Rattle.buffer.specs.Sets.{contours};
ghost use Rattle.difference.specs.Lines.{same, lines_of, written};
ghost use Rattle.difference.specs.inside.Sets.{Sound, Room};

use crate::inner::lines;
use crate::inner::lines::Line;
use crate::walker;

// Contour k of a set, as a walker that has come to it hands it out.
fn contour_at<'a>(points: &'a [i32], ranges: &[[usize; 2]], k: usize) -> &'a [i32]
    requires { Sound points.now ranges.now × (k < length ranges.now) }
    ensures { result.now ≡ get_or (contours points.now (spans ranges.now)) k [] }
{
    walker::reached(points, ranges[k][0], ranges[k][1])
}

// Line k.
fn line_at(
    points: &[i32],
    ranges: &[[usize; 2]],
    others: &[i32],
    other_ranges: &[[usize; 2]],
    k: usize,
) -> Line
    requires { Sound points.now ranges.now
        × Sound others.now other_ranges.now
        × (k < max (length ranges.now) (length other_ranges.now)) }
    ensures { result
        ≡ get_or (lines_of points.now ranges.now others.now other_ranges.now)
        k same }
{
    if ranges.len() <= k {
        return Line::OnlySecond;
    }
    if other_ranges.len() <= k {
        return Line::OnlyFirst;
    }
    lines::of_two(
        contour_at(points, ranges, k),
        contour_at(others, other_ranges, k),
    )
}

// Writes all n lines.
pub fn fill(
    points: &[i32],
    ranges: &[[usize; 2]],
    others: &[i32],
    other_ranges: &[[usize; 2]],
    n: usize,
    listing: &mut [[usize; 2]],
)
    requires { Sound points.now ranges.now
        × Sound others.now other_ranges.now
        × Room n ranges.now other_ranges.now listing.old }
    ensures { listing.new
        ≡ front
        (written (lines_of points.now ranges.now others.now other_ranges.now))
        listing.old }
{
    for k in 0..n {
        let line = line_at(points, ranges, others, other_ranges, k);
        listing[k] = line.row();
    }
}
