// What the replay of a shift asks of the functions that it calls.
pub mod asking;
pub mod doing;
pub mod reading;
