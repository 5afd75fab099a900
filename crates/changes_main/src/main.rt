// Compares the set files that its two words name, and says on standard output what changed from the first to the second.
#![tactic(auto)]

ghost use Rattle.std.specs.Prelude.{◌≤◌, length, IfOk};

use changes::TEXT;
use changes::inner::comparing;
use std::fs::File;
use std::{env, fs, io};

// One byte past the most that a file has, so that a longer one is told from it.
const BYTES: usize = 65537;

// Opens the file of that name, or says why it cannot.
fn open(rt: &HostRuntime, name: &str) -> io::Result<Option<File>> {
    match fs::open(rt, name) {
        Ok(file) => Ok(Some(file)),
        Err(e) => {
            eprintln!(rt; "{name}: {e}")?;
            Ok(None)
        }
    }
}

// Reads a file that is open, and closes it.
fn read(mut file: File, bytes: &mut [u8]) -> io::Result<usize>
    ensures { IfOk result (λ n. n ≤ length bytes.new) }
{
    streams::read_full(&mut file, bytes)
}

// Writes what is said of two files.
fn print(rt: &HostRuntime, first: &[u8], second: &[u8]) -> io::Result<()> {
    let mut text = [0u8; TEXT];
    let length = comparing::tell(first, second, &mut text);
    rt.stdout().write_all(&text[..length])
}

// Reads two files that are open, and compares them.
fn compare(rt: &HostRuntime, first: File, second: File) -> io::Result<()> {
    let mut bytes = [0u8; BYTES];
    let mut others = [0u8; BYTES];
    let m = read(first, &mut bytes)?;
    let n = read(second, &mut others)?;
    print(rt, &bytes[..m], &others[..n])
}

fn main(rt: HostRuntime) -> io::Result<()> {
    let mut words = env::args(&rt)?;
    let _program = words.next();
    match (words.next(), words.next(), words.next()) {
        (Some(one), Some(other), None) => {
            let Some(first) = open(&rt, one.as_str())? else {
                return Ok(());
            };
            let Some(second) = open(&rt, other.as_str())? else {
                return Ok(());
            };
            compare(&rt, first, second)
        }
        _ => rt.stderr().write_all(b"usage: changes FIRST SECOND\n"),
    }
}
