// The points of a contour, in either edition.
ghost use Rattle.std.specs.Prelude.{◌≡◌, ◌+◌, ◌*◌, ◌≤◌, true, length};
ghost use Rattle.grid.specs.Limits.{all_on_grid};
ghost use Rattle.rows.specs.Rows.{placed};
ghost use Rattle.setfile.specs.Editions.{bound};
ghost use Rattle.setfile.specs.inside.Reading.{from_bit, header_in, front_points, Whole};

use crate::inner::fields;
use crate::inner::headers::Header;
use steps::inner::reading;

// Whether the contour at bit `at`, which has this header, is on its edition's grid.
pub fn on_grid(second: bool, bytes: &[u8], at: usize, h: Header) -> bool
    requires { Whole second bytes.now at
        × (h ≡ header_in second (from_bit bytes.now at)) }
    ensures { result ≡ all_on_grid (bound second) (front_points second (from_bit bytes.now at)) }
{
    if second {
        return reading::on_grid(bytes, at + 22, h.width, h.count);
    }
    fields::all_on(bytes, at / 8 + 2, 2 * h.count)
}

// Writes the points of that contour, which are on the grid, from position `to` on.
pub fn put(second: bool, bytes: &[u8], at: usize, h: Header, out: &mut [i32], to: usize)
    requires { Whole second bytes.now at
        × (h ≡ header_in second (from_bit bytes.now at))
        × (all_on_grid (bound second) (front_points second (from_bit bytes.now at)) ≡ true)
        × (to + 2 * h.count ≤ length out.old) }
    ensures { out.new
        ≡ placed to (front_points second (from_bit bytes.now at)) out.old }
{
    if second {
        reading::points(bytes, at + 22, h.width, h.count, out, to);
    } else {
        fields::coordinates(bytes, at / 8 + 2, 2 * h.count, out, to);
    }
}
