// What the library answers to a case of files or of drawings.
#![tactic(auto)]

pub mod drawings;
pub mod files;
