// What both writers do: the refusals of a set, and its file where the row has room.
ghost use Rattle.std.specs.Prelude.{◌≡◌, ◌≤◌, length as length_of, nat_le, IfSome};
ghost use Rattle.std.specs.Option.{is_some};
ghost use Rattle.replies.specs.Ladder.{first_of, room};
ghost use Rattle.replies.specs.Refusals.{told};
ghost use Rattle.grid.specs.Limits.{limit};
ghost use Rattle.setfile.specs.Writing.{written_as, leaving, written};
ghost use Rattle.setfile.specs.inside.Writing.{bounded_refusals, file_with, Ripe, Widths};

use crate::MOST_CONTOURS;
use crate::inner::{measuring, putting};
use replies::Refusal;

// The most points of a contour in a file.
const MOST_POINTS: usize = 32_767;

// What is refused of a set within a bound, but for its file's length: its first refusal, if any.
pub fn check_set(
    bound: u32,
    points: &[i32],
    contours: &[[usize; 2]],
    shapes: &[[usize; 2]],
) -> Result<(), Refusal>
    requires { bound ≤ limit }
    ensures { told result ≡ first_of (bounded_refusals bound points.now contours.now shapes.now) }
{
    buffer::inner::refusing::shapes(bound, points, contours, shapes)?;
    let over = measuring::some_over(contours, MOST_POINTS);
    let empty = measuring::some_empty(shapes);
    if (MOST_CONTOURS < contours.len()) | over | empty {
        return Err(Refusal::CantCarry);
    }
    Ok(())
}

// Writes the file of a set, of so many bytes, to the front of the row where it has room: in edition 2 where the widths of its
// contours are given, else in edition 1.
pub fn put_in_room(
    points: &[i32],
    contours: &[[usize; 2]],
    shapes: &[[usize; 2]],
    widths: Option<&[u8]>,
    length: usize,
    bytes: &mut [u8],
) -> Result<usize, Refusal>
    requires { (length ≤ length_of bytes.old → Ripe (is_some widths) points.now contours.now shapes.now bytes.old)
        × IfSome widths (λ w. Widths points.now contours.now (length_of contours.now) w.now) }
    ensures { leaving (written_as result).reply (written_as result).bytes bytes.new
        ≡ written (first_of (room (nat_le length (length_of bytes.old))))
        (file_with (is_some widths.entry) points.now contours.now shapes.now)
        bytes.old }
{
    if bytes.len() < length {
        return Err(Refusal::Room);
    }
    Ok(putting::put_file(points, contours, shapes, widths, bytes))
}
