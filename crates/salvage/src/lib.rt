// What is sound of a damaged file, written as a file of its own, with a list of what was dropped.
#![tactic(auto)]

pub mod answer;
mod inner;

ghost use Rattle.std.specs.Prelude.{◌≡◌};
ghost use Rattle.replies.specs.Ladder.{first_of};
ghost use Rattle.replies.specs.Refusals.{told};
ghost use Rattle.salvage.specs.Outcome.{salvaged_as, leaving, outcome};
ghost use Rattle.salvage.specs.inside.Sifting.{refusals};

pub use answer::{Salvaged, Saved};
use replies::Refusal;

// What is refused of a file, where the rows have so many entries: the first of 2, 10, 9 and 5, if any.
fn check(bytes: &[u8], out: usize, list: usize) -> Result<(), Refusal>
    ensures { told result ≡ first_of (refusals bytes.now out list) }
{
    setfile::inner::head::check(bytes)?;
    let n = setfile::inner::head::promised(bytes);
    if (out < bytes.len()) | (list < n) {
        return Err(Refusal::Room);
    }
    Ok(())
}

// Writes what is sound of a damaged file to the front of `out`, and notes in front of `dropped` which contours are left out and why; or refuses it and leaves both.
pub fn mend(bytes: &[u8], out: &mut [u8], dropped: &mut [[usize; 2]]) -> Result<Saved, Refusal>
    ensures { leaving (salvaged_as result) out.new dropped.new
        ≡ outcome bytes.now out.old dropped.old }
{
    check(bytes, out.len(), dropped.len())?;
    let n = setfile::inner::head::promised(bytes);
    let saved = inner::sifting::contours(bytes, n, out, dropped);
    let kept = n - saved.missing - saved.dropped;
    setfile::inner::putting::put_pair(4096 + kept, out, 0);
    Ok(saved)
}
