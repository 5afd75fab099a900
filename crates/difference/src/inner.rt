// The lines of a listing, and how they are written.
pub mod lines;
pub mod listing;
