// Reads a set file on standard input, writes the file of its shapes without their spikes on standard output, and on standard error what went.
#![tactic(auto)]

use ring::Rule;
use std::io;
use tidy::{BYTES, TEXT};

// One byte past the most that a file has, so that a longer one is told from it.
const READ: usize = 65537;

fn main(rt: HostRuntime) -> io::Result<()> {
    let mut bytes = [0u8; READ];
    let mut out = [0u8; BYTES];
    let mut text = [0u8; TEXT];
    let n = streams::read_full(&mut rt.stdin(), &mut bytes)?;
    let lengths = tidy::inner::tidying::tidy(Rule::Spike, &bytes[..n], &mut out, &mut text);
    let cleaned = lengths.bytes;
    let words = lengths.words;
    rt.stdout().write_all(&out[..cleaned])?;
    rt.stderr().write_all(&text[..words])
}
