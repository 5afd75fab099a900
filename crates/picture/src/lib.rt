// A job as a picture in SVG, from the bytes of its file: what the program `draw` writes.
#![tactic(auto)]

pub mod inner;

// Room for the picture of any file.
pub const TEXT: usize = 800000;

// The most points of a file that there is room for.
const POINTS: usize = 8192;

// The numbers of so many points.
const NUMBERS: usize = 16384;
