// What becomes of the contours of one shape.
ghost use Rattle.std.specs.Prelude.{◌≡◌, map, ◌++◌, ◌≤◌, length, take, drop};
ghost use Rattle.buffer.specs.Spans.{spans};
ghost use Rattle.buffer.specs.Sets.{contours};
ghost use Rattle.fates.specs.Fates.{later, shape_fates};
ghost use Rattle.fates.specs.inside.Telling.{Tellable};

use crate::inner::contour;
use buffer::inner::parts;
use ring::Rule;

// Those behind the outline, by what became of it.
fn others(
    rule: Rule,
    outline: u8,
    points: &[i32],
    ranges: &[[usize; 2]],
    next: &mut [u32],
    prev: &mut [u32],
    mark: &mut [u8],
    fates: &mut [u8],
)
    requires { Tellable points.now ranges.now next.old prev.old mark.old fates.old
        × (1 ≤ length ranges.now) }
    ensures { fates.new
        ≡ take 1 fates.old
        ++ map (later rule outline) (drop 1 (contours points.now (spans ranges.now))) }
{
    for i in 1..ranges.len() {
        let own = parts::named(points, ranges, i);
        fates[i] = contour::later(rule, outline, own, next, prev, mark);
    }
}

// An entry for each contour.
pub fn shape(
    rule: Rule,
    points: &[i32],
    ranges: &[[usize; 2]],
    next: &mut [u32],
    prev: &mut [u32],
    mark: &mut [u8],
    fates: &mut [u8],
)
    requires { Tellable points.now ranges.now next.old prev.old mark.old fates.old }
    ensures { fates.new ≡ shape_fates rule (contours points.now (spans ranges.now)) }
{
    if ranges.is_empty() {
        return;
    }
    let own = parts::named(points, ranges, 0);
    let outline = contour::alone(rule, own, next, prev, mark);
    fates[0] = outline;
    others(rule, outline, points, ranges, next, prev, mark, fates);
}
