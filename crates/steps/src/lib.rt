// A contour by its steps: its first point, and of each further one how far it is from the one before, in the smallest width.
#![tactic(auto)]

pub mod inner;
