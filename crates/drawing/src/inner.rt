// What the import and the export ask of each other.
pub mod command;
pub mod filling;
pub mod judging;
pub mod putting;
