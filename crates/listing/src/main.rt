// Reads a set file on standard input, cleans each contour by itself, and lists what changed.
#![tactic(auto)]

ghost use Rattle.std.specs.Prelude.{◌≤◌, length};
ghost use Rattle.report.specs.Listing.{listing as listing_of};

use report::inner::listing;
use report::{SHORT, TEXT};
use std::io;

// One byte past the most that a file has, so that a longer one is told from it.
const BYTES: usize = 65537;

// Writes the listing of a file, by a row that has room for it.
fn print(rt: &HostRuntime, bytes: &[u8], text: &mut [u8]) -> io::Result<()>
    requires { length (listing_of bytes.now) ≤ length text.old }
{
    let length = listing::list(bytes, text);
    rt.stdout().write_all(&text[..length])
}

// A row for few contours: it takes less to clear.
fn short(rt: &HostRuntime, bytes: &[u8]) -> io::Result<()>
    requires { length (listing_of bytes.now) ≤ 22537 }
{
    let mut text = [0u8; SHORT];
    print(rt, bytes, &mut text)
}

// A row for any file.
fn long(rt: &HostRuntime, bytes: &[u8]) -> io::Result<()>
    requires { length (listing_of bytes.now) ≤ 184312 }
{
    let mut text = [0u8; TEXT];
    print(rt, bytes, &mut text)
}

// The listing of a file, by the shorter row if that has room.
fn show(rt: &HostRuntime, bytes: &[u8]) -> io::Result<()> {
    if listing::longest(bytes) <= SHORT {
        short(rt, bytes)
    } else {
        long(rt, bytes)
    }
}

fn main(rt: HostRuntime) -> io::Result<()> {
    let mut bytes = [0u8; BYTES];
    let n = streams::read_full(&mut rt.stdin(), &mut bytes)?;
    show(&rt, &bytes[..n])
}
