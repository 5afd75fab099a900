// The rows of a set, filled from a drawing that was judged.
ghost use Rattle.std.specs.Prelude.{◌≡◌, map, ◌+◌, ◌*◌, ◌≤◌, length};
ghost use Rattle.rows.specs.Rows.{front};
ghost use Rattle.buffer.specs.Spans.{rows, laid};
ghost use Rattle.millimetres.specs.Scale.{units};
ghost use Rattle.drawing.specs.inside.Rows.{Coordinates, run, sizes};

use crate::command;
use crate::inner::command::{place_from, point_of};

// Writes the points of all places.
pub fn points(floats: &[f64], out: &mut [i32])
    requires { Coordinates floats.now × (length floats.now ≤ length out.old) }
    ensures { out.new ≡ front (map units floats.now) out.old }
{
    for i in 0..floats.len() / 2 {
        let p = point_of(place_from(floats, 2 * i));
        out[2 * i] = p.x;
        out[2 * i + 1] = p.y;
    }
}

// How many contours the kinds begin.
pub fn contours(kinds: &[u8]) -> usize
    ensures { result ≡ length (sizes kinds.now) }
{
    let mut n = 0;
    for &kind in kinds {
        n += usize::from(kind == command::MOVE);
    }
    n
}

// How many Lines stand in front, one behind the other.
fn lines(kinds: &[u8]) -> usize
    ensures { result ≡ run kinds.now }
{
    kinds.iter().take_while(|k| **k == command::LINE).count()
}

// Writes the ranges of all contours.
pub fn ranges(kinds: &[u8], records: &mut [[usize; 2]])
    requires { length (sizes kinds.now) ≤ length records.old }
    ensures { records.new
        ≡ front (rows (laid 0 (sizes kinds.now))) records.old }
{
    let mut k = 0;
    let mut start = 0;
    for (i, &kind) in kinds.iter().enumerate() {
        if kind != command::MOVE {
            continue;
        }
        let end = start + 1 + lines(&kinds[i + 1..]);
        records[k] = [start, end];
        start = end;
        k += 1;
    }
}
