// The set file: both editions, read and written.
#![tactic(auto)]

pub mod answer;
pub mod inner;
mod reading;
mod writing;
mod writing_2;

pub use answer::{Read, Written};
pub use reading::read;
pub use writing::write;
pub use writing_2::write_2;

// The most bytes of a file.
const MOST_BYTES: usize = 65_536;

// The most contours of a file.
const MOST_CONTOURS: usize = 4_095;
