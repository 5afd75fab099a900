// Text and lines, put into a row that has room for them.
pub mod counting;
pub mod line;
pub mod lines;
pub mod listing;
pub mod table;
pub mod text;
