// A text, read and packed.
ghost use Rattle.std.specs.Prelude.{◌≡◌, ◌≤◌, length};
ghost use Rattle.jobpack.specs.Packing.{packed_at, packing, leaving, outcome};
ghost use Rattle.jobread.specs.inside.Rows.{state_of, Bounded};

use crate::inner::writing;
use crate::{CONTOURS, Lengths, NUMBERS};
use jobread::inner::{places, reading};
use jobread::{Place, Reader};
use jobtext::TEXT;
use replies::Refusal;

// What is made of the rows, by where the reader is at the end of the text.
fn by_place(
    reader: Reader,
    second: bool,
    points: &[i32],
    contours: &[[usize; 2]],
    shapes: &[[usize; 2]],
    out: &mut [u8],
    words: &mut [u8],
) -> Lengths
    requires bounded { Bounded reader points.now contours.now shapes.now }
    requires in_bounds { (65536 ≤ length out.old) × (40 ≤ length words.old) }
    ensures { leaving result out.new words.new
        ≡ outcome
        (packed_at reader.place second (state_of reader points.now contours.now shapes.now))
        out.old words.old }
{
    let n = reader.numbers;
    let k = reader.contours;
    let m = reader.shapes;
    match reader.place {
        Place::Head(_) | Place::NoHead => writing::damaged(1, out, words),
        Place::Start => {
            writing::write(
                second,
                &points[..n],
                &contours[..k],
                &shapes[..m],
                out,
                words,
            )
        }
        Place::Word(..) | Place::Space | Place::Dash | Place::Number(..) => {
            writing::damaged(k + 2, out, words)
        }
        Place::NoLine => writing::damaged(k + 2, out, words),
        Place::Refused(refusal) => writing::refused(refusal, out, words),
    }
}

// Puts the file of a text's job in front of one row, or why there is none in front of the other.
pub fn pack(text: &[u8], out: &mut [u8], words: &mut [u8]) -> Lengths
    requires { (65536 ≤ length out.old) × (40 ≤ length words.old) }
    ensures { leaving result out.new words.new
        ≡ packing text.now out.old words.old }
{
    if TEXT < text.len() {
        return writing::refused(Refusal::TooMany, out, words);
    }
    let mut points = [0i32; NUMBERS];
    let mut contours = [[0usize; 2]; CONTOURS];
    let mut shapes = [[0usize; 2]; CONTOURS];
    let reader = reading::read(text, &mut points, &mut contours, &mut shapes);
    let second = places::letter(text, 8) == b'2';
    by_place(reader, second, &points, &contours, &shapes, out, words)
}
