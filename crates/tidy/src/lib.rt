// A job cleaned: the file of its cleaned shapes, and a line for each contour that went.
#![tactic(auto)]

pub mod inner;

// The most bytes of a file.
pub const BYTES: usize = 65536;

// Room for the lines of any file: 4,095 of 84 characters.
pub const TEXT: usize = 343980;

// The most points of a file that there is room for.
const POINTS: usize = 8192;

// The numbers of so many points.
const NUMBERS: usize = 16384;

// The most contours of a file, and the most shapes.
const CONTOURS: usize = 4095;
