// The head of a file: its edition, and how many contours it promises.
ghost use Rattle.std.specs.Prelude.{◌≡◌, ◌≤◌, length};
ghost use Rattle.replies.specs.Ladder.{first_of};
ghost use Rattle.replies.specs.Refusals.{told};
ghost use Rattle.setfile.specs.Layouts.{promised as promised_of};
ghost use Rattle.setfile.specs.Editions.{number as number_of_lem, is_second};
ghost use Rattle.setfile.specs.inside.Reading.{refusals_where, head_refusals, either_refusals};

use crate::MOST_BYTES;
use crate::inner::fields;
use replies::Refusal;

// Whether a file is of the second edition.
pub fn is_second(bytes: &[u8]) -> bool
    ensures { result ≡ is_second bytes.now }
{
    if bytes.is_empty() {
        return false;
    }
    bytes[0] / 16 == 2
}

// The number of an edition.
pub fn number(second: bool) -> u32
    ensures { result ≡ number_of_lem second }
{
    if second { 2 } else { 1 }
}

// What is refused of a file by its length and its head, where edition 2 is taken too or not: the first of 2, 10 and 9, if any.
fn check_where(bytes: &[u8], either: bool) -> Result<(), Refusal>
    ensures { told result ≡ first_of (refusals_where either bytes.now) }
{
    if MOST_BYTES < bytes.len() {
        return Err(Refusal::TooMany);
    }
    if bytes.len() < 2 {
        return Err(Refusal::Length);
    }
    let edition = fields::pair(bytes, 0) / 4096;
    if (edition != 1) & !(either & (edition == 2)) {
        return Err(Refusal::Edition);
    }
    Ok(())
}

// What is refused so where only edition 1 is taken.
pub fn check(bytes: &[u8]) -> Result<(), Refusal>
    ensures { told result ≡ first_of (head_refusals bytes.now) }
{
    check_where(bytes, false)
}

// And where either edition is.
pub fn check_either(bytes: &[u8]) -> Result<(), Refusal>
    ensures { told result ≡ first_of (either_refusals bytes.now) }
{
    check_where(bytes, true)
}

// How many contours a file promises.
pub fn promised(bytes: &[u8]) -> usize
    requires { 2 ≤ length bytes.now }
    ensures { result ≡ promised_of bytes.now }
{
    (fields::pair(bytes, 0) % 4096) as usize
}
