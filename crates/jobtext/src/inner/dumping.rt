// A file, judged and put as text.
ghost use Rattle.std.specs.Prelude.{◌≡◌, ◌≤◌, length};
ghost use Rattle.rows.specs.Rows.{front};
ghost use Rattle.jobtext.specs.Text.{dumped};

use crate::inner::job;
use report::inner::text;
use setfile::inner::{head, judging};

// Puts the text of a file, or the number by which it is refused, and answers how long that is.
pub fn dump(bytes: &[u8], text: &mut [u8]) -> usize
    requires { 1597444 ≤ length text.old }
    ensures { (result ≡ length (dumped bytes.now))
        × (text.new ≡ front (dumped bytes.now) text.old) }
{
    let second = head::is_second(bytes);
    match judging::judge(second, bytes) {
        Ok(file) => job::put(second, bytes, file.contours, text),
        Err(refusal) => text::put_line(text, 0, b"refused ", u64::from(refusal.number())),
    }
}
