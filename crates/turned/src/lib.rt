// A contour that starts elsewhere: the smallest start from which it is another, found in steps linear in its points and in no memory.
#![tactic(auto)]

pub mod inner;
