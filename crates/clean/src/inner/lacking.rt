// What is lacking of the scratch that is lent to a walk.
ghost use Rattle.std.specs.Prelude.{◌≡◌};
ghost use Rattle.replies.specs.Ladder.{first_of};
ghost use Rattle.replies.specs.Refusals.{told};
ghost use Rattle.clean.specs.Outcome.{scratch as scratch_of};

use replies::Refusal;

// Scratch of fewer entries than there are points, in any of the three rows.
pub fn scratch(n: usize, next: usize, prev: usize, mark: usize) -> Result<(), Refusal>
    ensures { told result ≡ first_of (scratch_of n next prev mark) }
{
    if next < n {
        return Err(Refusal::Scratch);
    }
    if prev < n {
        return Err(Refusal::Scratch);
    }
    if mark < n {
        return Err(Refusal::Scratch);
    }
    Ok(())
}
