// A file, judged and listed.
ghost use Rattle.std.specs.Prelude.{◌≡◌, ◌*◌, ◌≤◌, length, IfOk};
ghost use Rattle.replies.specs.Ladder.{first_of};
ghost use Rattle.replies.specs.Refusals.{told};
ghost use Rattle.rows.specs.Rows.{front};
ghost use Rattle.buffer.specs.Sets.{joined};
ghost use Rattle.setfile.specs.Editions.{is_second};
ghost use Rattle.report.specs.Listing.{job, listing_refusals, listing};
ghost use Rattle.report.specs.inside.Lines.{Listable};

use crate::POINTS;
use crate::inner::{table, text};
use buffer::Sizes;
use replies::Refusal;
use setfile::inner::{head, judging};

// At most how long the listing of a file is: the heading, and 45 characters for each contour that it promises. One byte
// promises at most 15.
pub fn longest(bytes: &[u8]) -> usize
    ensures { (length (listing bytes.now) ≤ result) × (result ≤ 184312) }
{
    if bytes.len() < 2 {
        return 712;
    }
    37 + 45 * head::promised(bytes)
}

// The sizes of a file that is not refused, where there is room for so many points.
pub fn accept(second: bool, bytes: &[u8]) -> Result<Sizes, Refusal>
    requires { second ≡ is_second bytes.now }
    ensures refusal { told result ≡ first_of (listing_refusals bytes.now) }
    ensures listable { IfOk result (λ sizes. Listable second bytes.now sizes.contours
        × (2 * sizes.points ≡ length (joined (job bytes.now)))) }
{
    let file = judging::judge(second, bytes)?;
    if POINTS < file.points {
        return Err(Refusal::Room);
    }
    Ok(file)
}

// Puts the listing of a file, and answers how long it is.
pub fn list(bytes: &[u8], text: &mut [u8]) -> usize
    requires { length (listing bytes.now) ≤ length text.old }
    ensures { (result ≡ length (listing bytes.now))
        × (text.new ≡ front (listing bytes.now) text.old) }
{
    let second = head::is_second(bytes);
    match accept(second, bytes) {
        Ok(file) => table::put(second, bytes, file.contours, text),
        Err(refusal) => text::put_line(text, 0, b"refused ", u64::from(refusal.number())),
    }
}
