pub mod counting;
pub mod ending;
pub mod saying;
pub mod table;
pub mod wide;
