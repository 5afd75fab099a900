// The file of a text's job: what the program `pack` writes.
#![tactic(auto)]

pub mod inner;

// How long the file is, and what is said.
#[derive(Clone, Copy)]
pub struct Lengths {
    pub bytes: usize,
    pub words: usize,
}

// The most bytes of a file.
pub const BYTES: usize = 65536;

// Room for what is said.
pub const WORDS: usize = 40;

// The most numbers of a job.
const NUMBERS: usize = 131072;

// The most contours of a job.
const CONTOURS: usize = 4095;
