// A drawing is judged whole before the first write.
ghost use Rattle.std.specs.Prelude.{◌≡◌, false, ◌*◌, length};
ghost use Rattle.replies.specs.Ladder.{first_of};
ghost use Rattle.replies.specs.Refusals.{told};
ghost use Rattle.drawing.specs.Commands.{Item, items, asked};
ghost use Rattle.drawing.specs.Faults.{place_faults, faults, first_fault as first_fault_of};
ghost use Rattle.drawing.specs.Importing.{refusals};

use crate::command;
use crate::command::{Command, Place};
use crate::inner::command::read;
use replies::Refusal;

// 14 for a NaN or an infinity, then 3 for a coordinate off the grid.
fn place_fault(p: Place) -> Result<(), Refusal>
    ensures { told result ≡ first_of (place_faults p) }
{
    if millimetres::on_grid(p.x) & millimetres::on_grid(p.y) {
        return Ok(());
    }
    if millimetres::finite(p.x) & millimetres::finite(p.y) {
        return Err(Refusal::OffGrid);
    }
    Err(Refusal::NotFinite)
}

// What is wrong with a command, where a contour is open or not.
fn fault(opened: bool, command: Command) -> Result<(), Refusal>
    ensures { told result ≡ first_of (faults opened (Item.command command)) }
{
    match command {
        Command::Move(p) => place_fault(p),
        Command::Line(p) => {
            if opened {
                place_fault(p)
            } else {
                Err(Refusal::NoDrawing)
            }
        }
        Command::Close => {
            if opened {
                Ok(())
            } else {
                Err(Refusal::NoDrawing)
            }
        }
    }
}

// What is wrong with the first faulty command, if any is.
fn first_fault(kinds: &[u8], floats: &[f64]) -> Result<(), Refusal>
    requires { length floats.now ≡ asked kinds.now }
    ensures { told result ≡ first_fault_of false (items kinds.now floats.now) }
{
    let mut opened = false;
    let mut at = 0;
    for &kind in kinds {
        if command::CLOSE < kind {
            return Err(Refusal::NoDrawing);
        }
        fault(opened, read(kind, floats, at))?;
        opened = kind < command::CLOSE;
        at += command::brought(kind);
    }
    Ok(())
}

// How many of the kinds bring a place.
fn places(kinds: &[u8]) -> usize
    ensures { 2 * result ≡ asked kinds.now }
{
    let mut n = 0;
    for &kind in kinds {
        n += usize::from(kind < command::CLOSE);
    }
    n
}

// The first refusal of a drawing, room aside: 13, 14, 3 or 2.
pub fn judge(kinds: &[u8], floats: &[f64]) -> Result<(), Refusal>
    ensures { told result ≡ first_of (refusals kinds.now floats.now) }
{
    let n = places(kinds);
    if floats.len() % 2 == 1 {
        return Err(Refusal::NoDrawing);
    }
    if floats.len() / 2 != n {
        return Err(Refusal::NoDrawing);
    }
    first_fault(kinds, floats)?;
    if grid::MOST < n {
        return Err(Refusal::TooMany);
    }
    Ok(())
}
