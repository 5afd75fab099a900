// The cleaners of one contour, their verdicts, and the call that hands back what they kept.
#![tactic(auto)]

pub mod cleaning;
pub mod despike;
pub mod inner;
mod part;
pub mod simple;

pub use cleaning::{Cleaned, Cleaning};
pub use part::kept_part;
