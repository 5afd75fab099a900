// What the calls on figures ask of each other.
pub mod adding;
pub mod entries;
pub mod sums;
