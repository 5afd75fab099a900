// Reads a set file on standard input, and writes its picture on standard output.
#![tactic(auto)]

ghost use Rattle.std.specs.Prelude.{◌≤◌, length};
ghost use Rattle.picture.specs.Picture.{picture as picture_of};

use picture::TEXT;
use picture::inner::drawing;
use std::io;

// One byte past the most that a file has, so that a longer one is told from it.
const BYTES: usize = 65537;

// Writes the picture of a file, by a row that has room for it.
fn print(rt: &HostRuntime, bytes: &[u8], text: &mut [u8]) -> io::Result<()>
    requires { length (picture_of bytes.now) ≤ length text.old }
{
    let length = drawing::draw(bytes, text);
    rt.stdout().write_all(&text[..length])
}

// A row for any file.
fn show(rt: &HostRuntime, bytes: &[u8]) -> io::Result<()> {
    let mut text = [0u8; TEXT];
    print(rt, bytes, &mut text)
}

fn main(rt: HostRuntime) -> io::Result<()> {
    let mut bytes = [0u8; BYTES];
    let n = streams::read_full(&mut rt.stdin(), &mut bytes)?;
    show(&rt, &bytes[..n])
}
