// What is lacking of the rows that are lent to a cleaning.
ghost use Rattle.std.specs.Prelude.{◌≡◌, ◌++◌};
ghost use Rattle.replies.specs.Ladder.{first_of, room as room_for};
ghost use Rattle.replies.specs.Refusals.{told};
ghost use Rattle.clean.specs.Outcome.{scratch};

use replies::Refusal;

// Scratch of fewer entries than there are points, or an output row that is too short.
pub fn rows(n: usize, next: usize, prev: usize, mark: usize, room: bool) -> Result<(), Refusal>
    ensures { told result ≡ first_of (scratch n next prev mark ++ room_for room) }
{
    clean::inner::lacking::scratch(n, next, prev, mark)?;
    if !room {
        return Err(Refusal::Room);
    }
    Ok(())
}
