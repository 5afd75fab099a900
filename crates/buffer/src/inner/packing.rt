// A set that no call refuses, written to the front of lent rows where they have room.
ghost use Rattle.std.specs.Prelude.{◌≡◌, []};
ghost use Rattle.buffer.specs.Spans.{spans};
ghost use Rattle.buffer.specs.inside.Ranges.{Movable};
ghost use Rattle.buffer.specs.Answers.{leaving, packed_as, stored};

use crate::answer::Sizes;
use crate::inner::joining;
use replies::Refusal;

// Packs contours.
pub fn contours(
    points: &[i32],
    ranges: &[[usize; 2]],
    out: &mut [i32],
    records: &mut [[usize; 2]],
) -> Result<Sizes, Refusal>
    requires { Movable ranges.now 0 }
    ensures { leaving (packed_as result) out.new records.new []
        ≡ stored [] points.now (spans ranges.now) []
        out.old records.old [] }
{
    let room = (points.len() <= out.len()) & (ranges.len() <= records.len());
    if !room {
        return Err(Refusal::Room);
    }
    rows::inner::copy(points, out, 0);
    joining::records(ranges, records, 0, 0);
    Ok(Sizes {
        points: points.len() / 2,
        contours: ranges.len(),
        shapes: 0,
    })
}

// Packs shapes.
pub fn shapes(
    points: &[i32],
    contours: &[[usize; 2]],
    shapes: &[[usize; 2]],
    out: &mut [i32],
    records: &mut [[usize; 2]],
    groups: &mut [[usize; 2]],
) -> Result<Sizes, Refusal>
    requires { Movable contours.now 0 × Movable shapes.now 0 }
    ensures { leaving (packed_as result) out.new records.new groups.new
        ≡ stored [] points.now (spans contours.now)
        (spans shapes.now)
        out.old records.old groups.old }
{
    let room = (points.len() <= out.len())
        & (contours.len() <= records.len())
        & (shapes.len() <= groups.len());
    if !room {
        return Err(Refusal::Room);
    }
    rows::inner::copy(points, out, 0);
    joining::records(contours, records, 0, 0);
    joining::records(shapes, groups, 0, 0);
    Ok(Sizes {
        points: points.len() / 2,
        contours: contours.len(),
        shapes: shapes.len(),
    })
}
