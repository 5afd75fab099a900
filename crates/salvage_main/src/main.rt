// Reads a damaged set file on standard input, writes what is sound of it on standard output, and what was lost, in words, on standard error.
#![tactic(auto)]

use account::{BYTES, TEXT};
use std::io;

// One byte past the most that a file has, so that a longer one is told from it.
const READ: usize = 65537;

fn main(rt: HostRuntime) -> io::Result<()> {
    let mut bytes = [0u8; READ];
    let mut out = [0u8; BYTES];
    let mut text = [0u8; TEXT];
    let n = streams::read_full(&mut rt.stdin(), &mut bytes)?;
    let lengths = account::inner::mending::mend(&bytes[..n], &mut out, &mut text);
    let mended = lengths.bytes;
    let words = lengths.text;
    rt.stdout().write_all(&out[..mended])?;
    rt.stderr().write_all(&text[..words])
}
