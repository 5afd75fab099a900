// Which vertices of a job cleaning keeps, and their dots in a picture.
#![tactic(auto)]

pub mod inner;
