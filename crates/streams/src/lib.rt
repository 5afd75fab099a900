// A stream of bytes, read into a row that the caller lends.
#![tactic(auto)]

ghost use Rattle.std.specs.Prelude.{◌≤◌, length, IfOk};

use std::io;
use std::io::Read;

// Reads until the row is full or the stream ends, and answers how many bytes stand in its front then.
pub fn read_full<R: Read>(stream: &mut R, bytes: &mut [u8]) -> io::Result<usize>
    ensures { IfOk result (λ n. n ≤ length bytes.new) }
{
    let mut done: usize = 0;
    while done < bytes.len() {
        let came = stream.read(&mut bytes[done..])?;
        if came == 0 {
            break;
        }
        done += came;
    }
    Ok(done)
}
