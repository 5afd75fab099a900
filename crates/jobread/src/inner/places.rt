// What a character means, by where the reader is.
ghost use Rattle.std.specs.Prelude.{◌≡◌, ◌<◌, get_or, slice_get, unwrap_or, IfSome};
ghost use Rattle.jobtext.specs.Text.{word as word_of};
ghost use Rattle.jobread.specs.Places.{digit as digit_of, after_head, begun as begun_by, after_space, after_dash, more as more_of, after_digit};

use crate::Place;

// The largest size of a number.
pub const LARGEST: usize = 2147483647;

// What a character is worth as a digit.
pub fn digit(c: u8) -> Option<usize>
    ensures value { unwrap_or result 10 ≡ digit_of c }
    ensures small { IfSome result (λ d. d < 10) }
{
    if c.is_ascii_digit() {
        return Some(usize::from(c - b'0'));
    }
    None
}

// Letter number k of a word; 0 behind its last, which specs/Places asks for.
pub fn letter(word: &[u8], k: usize) -> u8
    ensures { result ≡ get_or word.now k 0 }
{
    word.get(k).copied().unwrap_or(0)
}

// Behind k characters of the line of the edition.
pub fn head(k: usize, c: u8) -> Place
    ensures { result ≡ after_head k c }
{
    let fits = (c == letter(b"edition 1\n", k)) | ((k == 8) & (c == b'2'));
    if !fits {
        return Place::NoHead;
    }
    if k < 9 {
        return Place::Head(k + 1);
    }
    Place::Start
}

// Where a number's first digit is due.
fn begun(below: bool, c: u8) -> Place
    ensures { result ≡ begun_by below c }
{
    match digit(c) {
        Some(d) => Place::Number(below, d),
        None => Place::NoLine,
    }
}

// Behind a space.
pub fn space(c: u8) -> Place
    ensures { result ≡ after_space c }
{
    if c == b'-' {
        return Place::Dash;
    }
    begun(false, c)
}

// Behind a dash.
pub fn dash(c: u8) -> Place
    ensures { result ≡ after_dash c }
{
    if c == b'0' {
        return Place::NoLine;
    }
    begun(true, c)
}

// A size with one digit more; where it is too large for any number it stays so.
fn more(size: usize, d: usize) -> usize
    requires { d < 10 }
    ensures { result ≡ more_of size d }
{
    if LARGEST < size {
        return size;
    }
    size * 10 + d
}

// Behind digits, with one more.
pub fn number(below: bool, size: usize, d: usize) -> Place
    requires { d < 10 }
    ensures { result ≡ after_digit below size d }
{
    if size == 0 {
        return Place::NoLine;
    }
    Place::Number(below, more(size, d))
}

// Letter number k of the word of a contour, which begins a shape or not; none behind its last.
pub fn word_letter(begins: bool, k: usize) -> Option<u8>
    ensures { result ≡ slice_get (word_of begins) k }
{
    let word: &[u8] = if begins { b"shape" } else { b"hole" };
    word.get(k).copied()
}
