// A text, read.
ghost use Rattle.std.specs.Prelude.{◌≡◌, ◌≤◌};
ghost use Rattle.jobread.specs.Reading.{value as value_of, in_number, step as step_of, run, nothing};
ghost use Rattle.jobread.specs.inside.Rows.{state_of, Rooms};

use crate::inner::{ends, places};
use crate::{Place, Reader};
use replies::Refusal;

// A number, by its sign and its size.
fn value(below: bool, size: usize) -> i32
    requires { size ≤ 2147483647 }
    ensures { result ≡ value_of below size }
{
    let z = size as i32;
    if below {
        return -z;
    }
    z
}

// Behind digits.
fn number(
    reader: Reader,
    below: bool,
    size: usize,
    c: u8,
    points: &mut [i32],
    contours: &mut [[usize; 2]],
    shapes: &mut [[usize; 2]],
) -> Reader
    requires { Rooms points.old contours.old shapes.old }
    ensures { state_of result points.new contours.new shapes.new
        ≡ in_number below size (state_of reader points.old contours.old shapes.old) c }
{
    if let Some(d) = places::digit(c) {
        return ends::moved(reader, places::number(below, size, d));
    }
    if places::LARGEST < size {
        return ends::moved(reader, Place::Refused(Refusal::OffGrid));
    }
    let n = reader.numbers;
    if points.len() <= n {
        return ends::moved(reader, Place::Refused(Refusal::TooMany));
    }
    points[n] = value(below, size);
    ends::behind(ends::counted(reader), c, contours, shapes)
}

// One character more.
fn step(
    reader: Reader,
    c: u8,
    points: &mut [i32],
    contours: &mut [[usize; 2]],
    shapes: &mut [[usize; 2]],
) -> Reader
    requires { Rooms points.old contours.old shapes.old }
    ensures { state_of result points.new contours.new shapes.new
        ≡ step_of (state_of reader points.old contours.old shapes.old) c }
{
    match reader.place {
        Place::Head(k) => ends::moved(reader, places::head(k, c)),
        Place::Start => ends::start(reader, c),
        Place::Word(begins, k) => ends::word(reader, begins, k, c, contours, shapes),
        Place::Space => ends::moved(reader, places::space(c)),
        Place::Dash => ends::moved(reader, places::dash(c)),
        Place::Number(below, size) => number(reader, below, size, c, points, contours, shapes),
        Place::NoHead | Place::NoLine | Place::Refused(_) => reader,
    }
}

// Reads a text into rows that just hold the most that a file carries.
pub fn read(
    text: &[u8],
    points: &mut [i32],
    contours: &mut [[usize; 2]],
    shapes: &mut [[usize; 2]],
) -> Reader
    requires { Rooms points.old contours.old shapes.old }
    ensures { state_of result points.new contours.new shapes.new
        ≡ run nothing text.now }
{
    let mut reader = Reader {
        place: Place::Head(0),
        begins: false,
        start: 0,
        numbers: 0,
        contours: 0,
        shapes: 0,
        first: 0,
    };
    for c in text {
        reader = step(reader, *c, points, contours, shapes);
    }
    reader
}
