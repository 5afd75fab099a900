// What changed from one job to another, in words, from the bytes of their files.
#![tactic(auto)]

pub mod inner;

// Room for all that is said of any two files: 4,095 lines of 76 characters, and the counts.
pub const TEXT: usize = 311328;

// The numbers of the most points of a file that there is room for.
const NUMBERS: usize = 16384;

// The most contours of a file.
const CONTOURS: usize = 4095;
