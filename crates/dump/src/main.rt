// Reads a set file on standard input, and writes its job as text.
#![tactic(auto)]

use jobtext::TEXT;
use jobtext::inner::dumping;
use std::io;

// One byte past the most that a file has, so that a longer one is told from it.
const BYTES: usize = 65537;

fn main(rt: HostRuntime) -> io::Result<()> {
    let mut bytes = [0u8; BYTES];
    let mut text = [0u8; TEXT];
    let n = streams::read_full(&mut rt.stdin(), &mut bytes)?;
    let length = dumping::dump(&bytes[..n], &mut text);
    rt.stdout().write_all(&text[..length])
}
