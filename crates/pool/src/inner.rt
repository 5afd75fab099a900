// What the calls on a pool share and ask of each other.
pub mod adding;
pub mod changing;
pub mod moving;
pub mod records;
pub mod survey;
