// Two files compared, and what is said of them put into a row that has room for it.
pub mod comparing;
pub mod counts;
pub mod lines;
