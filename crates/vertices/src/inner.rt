// The marks of all points of a file, and the dots by them.
pub mod dots;
pub mod settling;

// The mark of a point that a walk removes; the others have less.
const REMOVED: u8 = 2;
