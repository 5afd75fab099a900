// The static library: the functions that programs in C and Rust call, each with the contract of the one of `ukmerelt` that it hands its arguments to.
#![tactic(auto)]

pub mod comparing;
pub mod contour_sets;
pub mod contours;
pub mod drawings;
pub mod files;
pub mod packing;
pub mod pools;
pub mod shape_sets;
pub mod shapes;
pub mod telling;
