// One shape, cleaned behind what is written.
ghost use Rattle.std.specs.Prelude.{◌≡◌};
ghost use Rattle.buffer.specs.Spans.{spans};
ghost use Rattle.buffer.specs.Sets.{contours};
ghost use Rattle.sets.specs.inside.Contour.{reached};
ghost use Rattle.sets.specs.inside.Shape.{Going, tested, run_shape};

use crate::inner::contour;
use crate::inner::contour::{Progress, Tried};
use ring::Rule;

// A shape stands or falls with its first contour, and the others are cleaned where it stands; an empty one stands.
pub fn shape(
    rule: Rule,
    points: &[i32],
    ranges: &[[usize; 2]],
    at: Progress,
    next: &mut [u32],
    prev: &mut [u32],
    mark: &mut [u8],
    out: &mut [i32],
    records: &mut [[usize; 2]],
) -> Tried
    requires { Going points.now ranges.now at next.old prev.old mark.old out.old records.old }
    ensures { tested result.stays (reached result.progress out.new records.new)
        ≡ run_shape rule (contours points.now (spans ranges.now))
        (reached at out.old records.old) }
{
    let mut progress = at;
    for i in 0..ranges.len() {
        let own = buffer::inner::parts::named(points, ranges, i);
        let tried = contour::behind(rule, own, progress, next, prev, mark, out, records);
        if i == 0 && !tried.stays {
            return tried;
        }
        progress = tried.progress;
    }
    Tried {
        stays: true,
        progress,
    }
}
