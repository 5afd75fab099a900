// Fields taken from bytes and put into them: functions that ask of their callers what these have seen to.
pub mod broad;
pub mod fields;
pub mod pens;
pub mod signs;
pub mod widths;
