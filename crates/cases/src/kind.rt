// The kinds of cases.
use crate::given::{BYTES, FLOATS, NUMBERS, RECORDS};
use crate::line::LARGEST;
use crate::room::{LONG, LONG_NUMBERS, READ, SET, SET_NUMBERS};

#[derive(Clone, Copy, PartialEq, Eq)]
pub enum Kind {
    // Every question about a contour and a point.
    Contour,
    // Where a point lies to a contour.
    Located,
    // A contour cleaned.
    Cleaned,
    // What a cleaning kept.
    Kept,
    // Every question about a set.
    Set,
    // A set packed or added to.
    Packed,
    // Every question about a set and a point.
    SetAndPoint,
    // A set cleaned.
    SetCleaned,
    // A file read.
    Read,
    // A file mended.
    Mended,
    // A set written as a file of edition 1.
    Written,
    // The same, of edition 2.
    Written2,
    // Two sets compared.
    Compared,
    // A history of two presses.
    History,
    // A drawing brought in.
    Coming,
    // A set given back as a drawing.
    Going,
}

// A byte names no kind.
#[derive(Clone, Copy)]
pub struct NoKind;

impl TryFrom<u8> for Kind {
    type Error = NoKind;

    fn try_from(byte: u8) -> Result<Kind, NoKind> {
        match byte {
            b'c' => Ok(Kind::Contour),
            b'l' => Ok(Kind::Located),
            b'w' => Ok(Kind::Cleaned),
            b'k' => Ok(Kind::Kept),
            b's' => Ok(Kind::Set),
            b'p' => Ok(Kind::Packed),
            b'q' => Ok(Kind::SetAndPoint),
            b'W' => Ok(Kind::SetCleaned),
            b'r' => Ok(Kind::Read),
            b'm' => Ok(Kind::Mended),
            b'f' => Ok(Kind::Written),
            b'F' => Ok(Kind::Written2),
            b'd' => Ok(Kind::Compared),
            b'h' => Ok(Kind::History),
            b'i' => Ok(Kind::Coming),
            b'e' => Ok(Kind::Going),
            _ => Err(NoKind),
        }
    }
}

impl Kind {
    // How many lists of records a case has.
    pub fn lists(self) -> usize {
        match self {
            Kind::Contour | Kind::Located | Kind::Cleaned | Kind::Kept => 0,
            Kind::Read | Kind::Mended | Kind::Coming => 0,
            Kind::Going => 1,
            Kind::Set | Kind::SetAndPoint | Kind::SetCleaned => 2,
            Kind::Written | Kind::Written2 | Kind::Compared | Kind::History => 2,
            Kind::Packed => 3,
        }
    }

    // Whether a point stands in front.
    pub fn has_point(self) -> bool {
        matches!(self, Kind::Contour | Kind::Located | Kind::SetAndPoint)
    }

    // The most that each number in front can be. Most are lengths of rows that are lent.
    pub fn limits(self) -> &'static [usize] {
        match self {
            Kind::Cleaned => &[1, LONG, LONG, LONG, LONG_NUMBERS],
            Kind::Kept => &[2147483648, 2147483648, NUMBERS],
            Kind::Packed => &[7, SET_NUMBERS, SET, SET, NUMBERS],
            Kind::SetCleaned => &[3, SET, SET, SET, SET_NUMBERS, SET, SET],
            Kind::Read => &[LONG_NUMBERS, READ, READ],
            Kind::Written | Kind::Written2 => &[LONG],
            Kind::Mended => &[LONG, READ],
            Kind::Coming => &[NUMBERS, RECORDS],
            Kind::Going => &[BYTES, FLOATS],
            Kind::Compared => &[SET, NUMBERS],
            Kind::History => &[LONG_NUMBERS, LONG, LARGEST],
            Kind::Contour | Kind::Located | Kind::Set | Kind::SetAndPoint => &[],
        }
    }
}
