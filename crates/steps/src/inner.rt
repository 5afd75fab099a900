// Steps taken from bits and put into them: functions that ask of their callers what these have seen to.
pub mod pairs;
pub mod reading;
pub mod writing;
