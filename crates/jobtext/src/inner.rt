// The lines of a job, put into a row that has room for them.
pub mod dumping;
pub mod job;
pub mod lines;
