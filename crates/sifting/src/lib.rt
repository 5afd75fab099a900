// The contours of a pool, cleaned where they lie. What does it asks that the rows hold a pool.
#![tactic(auto)]

pub mod inner;
