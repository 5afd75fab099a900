// Which points cleaning keeps, told by the marks of the walks.
ghost use Rattle.std.specs.Prelude.{◌≡◌, ◌*◌, ◌≤◌, length};
ghost use Rattle.grid.specs.Domain.{Contour};
ghost use Rattle.buffer.specs.Sets.{joined};
ghost use Rattle.report.specs.Listing.{rule_of, job};
ghost use Rattle.report.specs.inside.Lines.{Listable};
ghost use Rattle.vertices.specs.Vertices.{kept_of, all_kept};
ghost use Rattle.vertices.specs.inside.Marks.{survive, Marked};

use crate::inner::REMOVED;
use report::inner::counting;
use setfile::inner::headers;

// Cleans a contour, and leaves in its marks which points are kept: of one that collapses none.
fn settle(second: bool, contour: &[i32], next: &mut [u32], prev: &mut [u32], mark: &mut [u8])
    requires contour { Contour contour.now (length mark.old) }
    requires next_len { (length next.old ≡ length mark.old) × (length prev.old ≡ length mark.old) }
    ensures { survive mark.new ≡ kept_of (rule_of second) contour.now }
{
    if mark.len() < 3 {
        mark.fill(REMOVED);
        return;
    }
    let ending = ring::inner::walk(counting::rule(second), contour, 0, next, prev, mark);
    if !ending.kept {
        mark.fill(REMOVED);
    }
}

// The same for each of a file's n contours, which have these points.
pub fn settle_all(
    second: bool,
    bytes: &[u8],
    n: usize,
    points: &[i32],
    next: &mut [u32],
    prev: &mut [u32],
    mark: &mut [u8],
)
    requires listable { Listable second bytes.now n × (points.now ≡ joined (job bytes.now)) }
    requires marked { Marked points.now next.old prev.old mark.old }
    ensures { survive mark.new ≡ all_kept (rule_of second) (job bytes.now) }
{
    let mut at: usize = 16;
    let mut start: usize = 0;
    for i in 0..n {
        let h = headers::header_at(second, bytes, at);
        let count = h.count;
        let end = start + count;
        settle(
            second,
            &points[2 * start..2 * end],
            &mut next[..count],
            &mut prev[..count],
            &mut mark[start..end],
        );
        at += headers::size(second, h);
        start = end;
    }
}
