// The file of what was read, or why there is none.
ghost use Rattle.std.specs.Prelude.{◌≡◌, ◌≤◌, length};
ghost use Rattle.replies.specs.Ladder.{first_of};
ghost use Rattle.replies.specs.Refusals.{number};
ghost use Rattle.setfile.specs.Promises.{edition_file, write_refusals};
ghost use Rattle.setfile.specs.Writing as W;
ghost use Rattle.jobpack.specs.Packing.{refusing, damaging, set_packed, leaving, outcome};

use crate::Lengths;
use replies::Refusal;
use report::inner::text;

// No file: the job is refused.
pub fn refused(refusal: Refusal, out: &mut [u8], words: &mut [u8]) -> Lengths
    requires { 40 ≤ length words.old }
    ensures { leaving result out.new words.new
        ≡ outcome (refusing (number refusal)) out.old words.old }
{
    let said = text::put_line(words, 0, b"refused ", u64::from(refusal.number()));
    Lengths {
        bytes: 0,
        words: said,
    }
}

// No file: this line is none of a job.
pub fn damaged(line: usize, out: &mut [u8], words: &mut [u8]) -> Lengths
    requires { 40 ≤ length words.old }
    ensures { leaving result out.new words.new
        ≡ outcome (damaging line) out.old words.old }
{
    let said = text::put_line(words, 0, b"damaged: line ", line as u64);
    Lengths {
        bytes: 0,
        words: said,
    }
}

// Writes the file of a set in an edition to a row that has room for any.
pub fn written(
    second: bool,
    points: &[i32],
    contours: &[[usize; 2]],
    shapes: &[[usize; 2]],
    out: &mut [u8],
) -> Result<usize, Refusal>
    requires { 65536 ≤ length out.old }
    ensures { W.leaving (W.written_as result).reply (W.written_as result).bytes out.new
        ≡ W.written (first_of (write_refusals second points.now contours.now shapes.now))
        (edition_file second points.now contours.now shapes.now)
        out.old }
{
    if second {
        return setfile::write_2(points, contours, shapes, out);
    }
    setfile::write(points, contours, shapes, out)
}

// Writes the file of a set in an edition, or says why there is none.
pub fn write(
    second: bool,
    points: &[i32],
    contours: &[[usize; 2]],
    shapes: &[[usize; 2]],
    out: &mut [u8],
    words: &mut [u8],
) -> Lengths
    requires { (65536 ≤ length out.old) × (40 ≤ length words.old) }
    ensures { leaving result out.new words.new
        ≡ outcome (set_packed second points.now contours.now shapes.now)
        out.old words.old }
{
    match written(second, points, contours, shapes, out) {
        Ok(bytes) => Lengths { bytes, words: 0 },
        Err(refusal) => refused(refusal, out, words),
    }
}
