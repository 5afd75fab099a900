// The parts of a picture, put into a row that has room for them.
pub mod drawing;
pub mod frame;
pub mod outlines;
pub mod scale;
pub mod spots;
pub mod words;
