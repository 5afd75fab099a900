// Drawings in millimetres: outlines as commands, brought onto the grid, and given back.
#![tactic(auto)]

pub mod answer;
mod command;
mod exporting;
mod importing;
mod inner;

pub use answer::Drawn;
pub use command::{Command, Place};
pub use exporting::export;
pub use importing::import;
