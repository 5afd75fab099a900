// The writer of edition 2: a set's file, or the set's first refusal.
ghost use Rattle.std.specs.Prelude.{◌≡◌};
ghost use Rattle.setfile.specs.Writing.{written_as, leaving};
ghost use Rattle.setfile.specs.Writing2.{outcome};

use crate::inner::measuring;
use crate::inner::writing::{check_set, put_in_room};
use crate::{MOST_BYTES, MOST_CONTOURS};
use replies::Refusal;

// Writes the file of a set to the front of the row, unless the set is refused.
pub fn write_2(
    points: &[i32],
    contours: &[[usize; 2]],
    shapes: &[[usize; 2]],
    bytes: &mut [u8],
) -> Result<usize, Refusal>
    ensures { leaving (written_as result).reply (written_as result).bytes bytes.new
        ≡ outcome points.now contours.now shapes.now
        bytes.old }
{
    check_set(grid::LIMIT, points, contours, shapes)?;
    let mut widths = [0u8; MOST_CONTOURS];
    let length = measuring::file_length(points, contours, &mut widths);
    if MOST_BYTES < length {
        return Err(Refusal::TooMany);
    }
    put_in_room(points, contours, shapes, Some(&widths), length, bytes)
}
