// Numbers in bits, the most significant first: fields of any width, at any bit of a row of bytes.
#![tactic(auto)]

pub mod inner;
