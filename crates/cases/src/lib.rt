// Lists of cases: their lines, the rows that a case fills and lends, and the line of its answers.
#![tactic(auto)]

pub mod answer;
pub mod case;
pub mod checksum;
pub mod entries;
pub mod given;
pub mod kind;
pub mod line;
pub mod room;
pub mod source;
#[cfg(test)]
mod tests;
pub mod text;
