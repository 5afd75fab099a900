// Questions about contour sets and shape sets, and the cleaning of shapes.
#![tactic(auto)]

pub mod areas;
mod cleaning;
mod containing;
pub mod despike;
pub mod inner;
pub mod shapes;
pub mod simple;

pub use cleaning::{CleanedSet, SetCleaning};
pub use containing::in_shape;
