// What the library answers to a case of a contour, or of a set that is asked or packed, and the columns of an answer.
#![tactic(auto)]

pub mod column;
pub mod contours;
pub mod lent;
pub mod packing;
pub mod parts;
pub mod told;
