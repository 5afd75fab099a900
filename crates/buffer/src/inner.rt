// What the calls on sets share and ask of each other.
pub mod joining;
pub mod packing;
pub mod parts;
pub mod refusing;
