// What the functions that refuse call once nothing is refused.
pub mod contour;
pub mod shape;
pub mod shapes;
