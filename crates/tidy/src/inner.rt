// A file cleaned, and what went put into a row that has room for it.
pub mod lines;
pub mod tidying;
