// What the reader and the writer are made of: functions that ask of their callers what these have seen to.
// The reader tells an edition by a bool, whether it is the second, as the words of specs/ and the crates above do.
pub mod contours;
pub mod fields;
pub mod filling;
pub mod head;
pub mod headers;
pub mod judging;
pub mod measuring;
pub mod putting;
pub mod writing;
