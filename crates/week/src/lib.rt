// The weekly figures of set files that stand one behind the other: what the program `weekly` writes.
#![tactic(auto)]

pub mod answer;
pub mod inner;

pub use answer::Week;

// Room for all that is said of a week.
pub const TEXT: usize = 1024;

// The most points of a file that there is room for.
const POINTS: usize = 8192;

// The numbers of so many points.
const NUMBERS: usize = 16384;

// The most contours of a file.
const CONTOURS: usize = 4095;

// The most bytes of a file.
const MOST_BYTES: usize = 65536;
