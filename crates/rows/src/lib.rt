// Lent rows: what stands in front of them, what is written to them, and the parts of them that are handed out.
#![tactic(auto)]

pub mod inner;
