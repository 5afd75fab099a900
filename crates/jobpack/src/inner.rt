// A text, read and packed into rows that have room.
pub mod packing;
pub mod writing;
