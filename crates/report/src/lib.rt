// The listing of a file, from its bytes: what the program `listing` writes.
#![tactic(auto)]

pub mod inner;

// Room for the longest listing: the heading, and 4,095 lines of 45 characters.
pub const TEXT: usize = 184312;

// Room for the listing of a file of at most 500 contours.
pub const SHORT: usize = 22537;

// The most points of a file that there is room for.
const POINTS: usize = 8192;

// The numbers of so many points.
const NUMBERS: usize = 16384;
