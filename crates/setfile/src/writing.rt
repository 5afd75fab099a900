// The writer of edition 1: a set's file, or the set's first refusal.
ghost use Rattle.std.specs.Prelude.{◌≡◌, length as length_of};
ghost use Rattle.replies.specs.Ladder.{first_of};
ghost use Rattle.replies.specs.Refusals.{told};
ghost use Rattle.grid.specs.Domain.{count};
ghost use Rattle.setfile.specs.Format.{file_length};
ghost use Rattle.setfile.specs.Writing.{written_as, refusals, leaving, outcome};

use crate::MOST_BYTES;
use crate::inner::writing::{check_set, put_in_room};
use replies::Refusal;

// How many bytes the file of a set has.
fn file_length(points: &[i32], contours: &[[usize; 2]]) -> usize
    ensures { result ≡ file_length (length_of contours.now) (count points.now) }
{
    2 + 2 * contours.len() + 8 * (points.len() / 2)
}

// What is refused of a set: its first refusal, if any. Too many points make too long a file.
fn check(points: &[i32], contours: &[[usize; 2]], shapes: &[[usize; 2]]) -> Result<(), Refusal>
    ensures { told result ≡ first_of (refusals points.now contours.now shapes.now) }
{
    if points.len() % 2 == 1 {
        return Err(Refusal::Odd);
    }
    if MOST_BYTES < file_length(points, contours) {
        return Err(Refusal::TooMany);
    }
    check_set(grid::NARROW, points, contours, shapes)
}

// Writes the file of a set to the front of the row, unless the set is refused.
pub fn write(
    points: &[i32],
    contours: &[[usize; 2]],
    shapes: &[[usize; 2]],
    bytes: &mut [u8],
) -> Result<usize, Refusal>
    ensures { leaving (written_as result).reply (written_as result).bytes bytes.new
        ≡ outcome points.now contours.now shapes.now
        bytes.old }
{
    check(points, contours, shapes)?;
    let length = file_length(points, contours);
    put_in_room(points, contours, shapes, None, length, bytes)
}
