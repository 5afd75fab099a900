// What the functions that refuse call once nothing is refused.
pub mod containing;
pub mod contour;
pub mod lacking;
pub mod passing;
pub mod shape;
pub mod shapes;
pub mod sums;
