// A file, mended, with its account.
ghost use Rattle.std.specs.Prelude.{◌≡◌, ◌≤◌, length};
ghost use Rattle.account.specs.Words.{leaving, outcome};

use crate::Lengths;
use crate::inner::lines;
use report::inner::text;

// The most contours that a file promises.
const CONTOURS: usize = 4095;

// Puts the mended file and its account, or the number by which the file is refused and no file.
pub fn mend(bytes: &[u8], out: &mut [u8], text: &mut [u8]) -> Lengths
    requires { (65536 ≤ length out.old) × (143370 ≤ length text.old) }
    ensures { leaving result out.new text.new
        ≡ outcome bytes.now out.old text.old }
{
    let mut list = [[0usize; 2]; CONTOURS];
    match salvage::mend(bytes, out, &mut list) {
        Ok(saved) => {
            let n = saved.dropped;
            let dropped = lines::put(&list[..n], text);
            Lengths {
                bytes: saved.bytes,
                text: lines::put_counts(text, dropped, saved.missing, saved.past),
            }
        }
        Err(refusal) => Lengths {
            bytes: 0,
            text: text::put_line(text, 0, b"refused ", u64::from(refusal.number())),
        },
    }
}
