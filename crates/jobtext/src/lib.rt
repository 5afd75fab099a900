// A job as text: what the program `dump` writes for a file.
#![tactic(auto)]

pub mod inner;

// Room for the longest text: the line of its edition, 4,095 lines of a word, and 131,072 numbers of 12 characters.
pub const TEXT: usize = 1597444;

// The numbers of the longest contour of a file.
const NUMBERS: usize = 65534;
