// The addition of a contour to a pool whose survey is known.
ghost use Rattle.std.specs.Prelude.{◌≡◌, true, ◌+◌, ◌-◌, ◌≤◌, max, ltb};
ghost use Rattle.replies.specs.Ladder.{first_of};
ghost use Rattle.replies.specs.Refusals.{told};
ghost use Rattle.grid.specs.Limits.{most};
ghost use Rattle.pool.specs.Lists.{capacity, reserve, holding};
ghost use Rattle.pool.specs.Calls.{of_adding};
ghost use Rattle.pool.specs.Calls.Call.{add};
ghost use Rattle.pool.specs.Rows.{lent};
ghost use Rattle.pool.specs.Outcome.{leaving, called, number};
ghost use Rattle.pool.specs.inside.Surveys.{Surveyed, grown};

use crate::inner::survey::Survey;
use crate::inner::{changing, records, survey};
use replies::Refusal;

// Whether n points more would pass the pool less the other's part.
fn full(mine: usize, others: usize, n: usize) -> bool
    requires { (mine ≤ capacity) × (others ≤ capacity) × (n ≤ most) }
    ensures { result ≡ ltb (capacity - max others reserve) (mine + holding n) }
{
    records::CAPACITY - others.max(records::RESERVE) < mine + records::holding(n)
}

// What adding asks: its first refusal, if any.
fn check(
    contour: &[i32],
    sound: bool,
    mine: usize,
    others: usize,
    enough: bool,
) -> Result<(), Refusal>
    requires { sound ≡ true → (mine ≤ capacity) × (others ≤ capacity) }
    ensures { told result ≡ first_of (of_adding contour.now sound mine others enough) }
{
    buffer::inner::refusing::of_set(grid::LIMIT, contour, sound)?;
    if full(mine, others, contour.len() / 2) {
        return Err(Refusal::Full);
    }
    if !enough {
        return Err(Refusal::Room);
    }
    Ok(())
}

// A press adds a contour that is cut by a tool, at the cost of the contour alone; the caller counts its record.
pub fn add_surveyed(
    points: &mut [i32],
    records: &mut [[usize; 4]],
    n: usize,
    found: Survey,
    second: bool,
    tool: usize,
    contour: &[i32],
) -> Result<(), Refusal>
    requires { Surveyed (lent points.old records.old n) found }
    ensures { leaving (told result) points.new records.new (grown (told result) n)
        ≡ called (number second) (add tool contour.now)
        (lent points.old records.old n) }
{
    let enough = (2 * records::CAPACITY <= points.len()) & (records::CAPACITY <= records.len());
    let mine = survey::share(found, second);
    let others = survey::share(found, !second);
    check(contour, found.sound, mine, others, enough)?;
    let press = survey::number(second);
    changing::append(points, records, n, found.points, press, tool, contour);
    Ok(())
}
