// The lines of an account, put into a row that has room for them.
pub mod lines;
pub mod mending;
