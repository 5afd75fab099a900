// A drawing, brought onto the grid.
ghost use Rattle.std.specs.Prelude.{◌≡◌, []};
ghost use Rattle.buffer.specs.Answers.{leaving, packed_as};
ghost use Rattle.drawing.specs.Importing.{outcome};

use crate::inner::{filling, judging};
use buffer::Sizes;
use replies::Refusal;

// Writes the contours of a drawing, as a contour set, to the front of the rows.
pub fn import(
    kinds: &[u8],
    floats: &[f64],
    points: &mut [i32],
    ranges: &mut [[usize; 2]],
) -> Result<Sizes, Refusal>
    ensures { leaving (packed_as result) points.new ranges.new []
        ≡ outcome kinds.now floats.now points.old ranges.old }
{
    judging::judge(kinds, floats)?;
    let contours = filling::contours(kinds);
    let room = (floats.len() <= points.len()) & (contours <= ranges.len());
    if !room {
        return Err(Refusal::Room);
    }
    filling::points(floats, points);
    filling::ranges(kinds, ranges);
    Ok(Sizes {
        points: floats.len() / 2,
        contours,
        shapes: 0,
    })
}
