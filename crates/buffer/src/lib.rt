// Sets of contours and of shapes, flat: points, and the ranges that name their parts.
#![tactic(auto)]

pub mod answer;
pub mod contours;
pub mod inner;
pub mod ranges;
pub mod refusal;
pub mod shapes;

pub use answer::{Counted, Packed, Sizes};
