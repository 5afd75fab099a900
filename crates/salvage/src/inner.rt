// The pass over a file that is not refused.
pub mod sifting;
