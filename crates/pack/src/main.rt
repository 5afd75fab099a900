// Reads a job's text on standard input, and writes its file on standard output, or on standard error why there is none.
#![tactic(auto)]

use jobpack::inner::packing;
use jobpack::{BYTES, WORDS};
use std::io;

// One byte past the longest text, so that a longer one is told from it.
const READ: usize = 1597445;

// Reads a text into the row, and writes what it is packed to.
fn read_and_write(rt: &HostRuntime, text: &mut [u8]) -> io::Result<()> {
    let mut out = [0u8; BYTES];
    let mut words = [0u8; WORDS];
    let n = streams::read_full(&mut rt.stdin(), text)?;
    let lengths = packing::pack(&text[..n], &mut out, &mut words);
    let file = lengths.bytes;
    let said = lengths.words;
    rt.stdout().write_all(&out[..file])?;
    rt.stderr().write_all(&words[..said])
}

fn main(rt: HostRuntime) -> io::Result<()> {
    let mut text = [0u8; READ];
    read_and_write(&rt, &mut text)
}
