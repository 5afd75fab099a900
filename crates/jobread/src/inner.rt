// What a reader of a text is made of.
pub mod ends;
pub mod places;
pub mod reading;
