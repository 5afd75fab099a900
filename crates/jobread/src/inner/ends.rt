// The ends of words, numbers and lines.
ghost use Rattle.std.specs.Prelude.{◌≡◌, ◌<◌};
ghost use Rattle.jobread.specs.Reading.{moved as moved_to, opened as opened_by, after_start, slot as slot_of, opens as opens_by, counted as counted_of, ended as ended_of, behind as behind_of, in_word};
ghost use Rattle.jobread.specs.inside.Rows.{lines_of, Ranges};

use crate::inner::places;
use crate::{Place, Reader};
use replies::Refusal;

// The reader, elsewhere.
pub fn moved(reader: Reader, place: Place) -> Reader
    ensures { result ≡ moved_to reader place }
{
    Reader { place, ..reader }
}

// Behind the first letter of a line.
fn opened(reader: Reader, begins: bool) -> Reader
    ensures { result ≡ opened_by reader begins }
{
    Reader {
        place: Place::Word(begins, 1),
        begins,
        ..reader
    }
}

// In front of a line.
pub fn start(reader: Reader, c: u8) -> Reader
    ensures { result ≡ after_start reader c }
{
    if c == b's' {
        return opened(reader, true);
    }
    if c == b'h' {
        return opened(reader, false);
    }
    moved(reader, Place::NoLine)
}

// Where the range of a contour's shape is written, behind m shapes.
fn slot(begins: bool, m: usize) -> usize
    ensures { result ≡ slot_of begins m }
{
    if begins { m } else { m.saturating_sub(1) }
}

// Which contour begins its shape.
fn opens(begins: bool, n: usize, first: usize) -> usize
    ensures { result ≡ opens_by begins n first }
{
    if begins { n } else { first }
}

// At the end of a line.
fn ended(reader: Reader, contours: &mut [[usize; 2]], shapes: &mut [[usize; 2]]) -> Reader
    requires { Ranges contours.old shapes.old }
    ensures { lines_of result contours.new shapes.new
        ≡ ended_of (lines_of reader contours.old shapes.old) }
{
    let n = reader.contours;
    let m = reader.shapes;
    if (reader.numbers % 2 == 1) | (!reader.begins & (m == 0)) {
        return moved(reader, Place::NoLine);
    }
    if (contours.len() <= n) | (shapes.len() <= m) {
        return moved(reader, Place::Refused(Refusal::CantCarry));
    }
    let end = reader.numbers / 2;
    let first = opens(reader.begins, n, reader.first);
    let k = slot(reader.begins, m);
    contours[n] = [reader.start, end];
    shapes[k] = [first, n + 1];
    Reader {
        place: Place::Start,
        start: end,
        contours: n + 1,
        shapes: k + 1,
        first,
        ..reader
    }
}

// Behind a word or a number.
pub fn behind(
    reader: Reader,
    c: u8,
    contours: &mut [[usize; 2]],
    shapes: &mut [[usize; 2]],
) -> Reader
    requires { Ranges contours.old shapes.old }
    ensures { lines_of result contours.new shapes.new
        ≡ behind_of (lines_of reader contours.old shapes.old) c }
{
    if c == b' ' {
        return moved(reader, Place::Space);
    }
    if c == b'\n' {
        return ended(reader, contours, shapes);
    }
    moved(reader, Place::NoLine)
}

// One number more.
pub fn counted(reader: Reader) -> Reader
    requires { reader.numbers < 131072 }
    ensures { result ≡ counted_of reader }
{
    Reader {
        numbers: reader.numbers + 1,
        ..reader
    }
}

// Behind k letters of a word.
pub fn word(
    reader: Reader,
    begins: bool,
    k: usize,
    c: u8,
    contours: &mut [[usize; 2]],
    shapes: &mut [[usize; 2]],
) -> Reader
    requires { Ranges contours.old shapes.old }
    ensures { lines_of result contours.new shapes.new
        ≡ in_word begins k (lines_of reader contours.old shapes.old) c }
{
    let Some(due) = places::word_letter(begins, k) else {
        return behind(reader, c, contours, shapes);
    };
    if c == due {
        return moved(reader, Place::Word(begins, k + 1));
    }
    moved(reader, Place::NoLine)
}
