// What salvaging a file gives: the mended file, and the account of what was lost, in words.
#![tactic(auto)]

pub mod inner;

// Room for the longest account: 4,095 lines of 35 characters, and the two counts.
pub const TEXT: usize = 143370;

// The most bytes of a file.
pub const BYTES: usize = 65536;

// How long the mended file is, and the account.
#[derive(Clone, Copy)]
pub struct Lengths {
    pub bytes: usize,
    pub text: usize,
}
