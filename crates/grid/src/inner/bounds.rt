// Coordinates and rows of them, tested against a bound that is at most the limit.
ghost use Rattle.std.specs.Prelude.{◌≡◌, ◌≤◌, not};
ghost use Rattle.replies.specs.Ladder.{first_of};
ghost use Rattle.replies.specs.Refusals.{told};
ghost use Rattle.grid.specs.Limits.{limit, on_grid, all_on_grid};
ghost use Rattle.grid.specs.Domain.{size as size_of, off, domain as domain_of};

use replies::Refusal;

// The lowest number whose top bit is set.
const TOP: u32 = 2_147_483_648;

// Whether a coordinate is beyond the bound: set off so that the lowest of the grid is the lowest i32, it passes the last.
// LLVM has one comparison of signed numbers for four of them.
fn beyond(bound: u32, x: i32) -> bool
    requires { bound ≤ limit }
    ensures { result ≡ not (on_grid bound x) }
{
    let set_off = x.cast_unsigned().wrapping_add(TOP + bound);
    (TOP + 2 * bound).cast_signed() < set_off.cast_signed()
}

// Whether a coordinate is within the bound.
pub fn on_grid(bound: u32, x: i32) -> bool
    requires { bound ≤ limit }
    ensures { result ≡ on_grid bound x }
{
    !beyond(bound, x)
}

// Whether a coordinate of a row is beyond the bound. It reads to the end, since LLVM then takes four numbers in a step.
fn some_beyond(bound: u32, row: &[i32]) -> bool
    requires { bound ≤ limit }
    ensures { result ≡ not (all_on_grid bound row.now) }
{
    row.iter().fold(false, |some, x| some | beyond(bound, *x))
}

// Whether every coordinate is within the bound. Most contours are boxes: of four to eight numbers the first four and the last
// four are all, and with the lengths known LLVM reads them in one step.
fn all_on_grid(bound: u32, row: &[i32]) -> bool
    requires { bound ≤ limit }
    ensures { result ≡ all_on_grid bound row.now }
{
    let n = row.len();
    if (n < 4) | (8 < n) {
        return !some_beyond(bound, row);
    }
    !(some_beyond(bound, &row[..4]) | some_beyond(bound, &row[n - 4..]))
}

// What is asked of a row's length: that it is even, and not of too many points.
pub fn size(points: &[i32]) -> Result<(), Refusal>
    ensures { told result ≡ first_of (size_of points.now) }
{
    if points.len() % 2 == 1 {
        return Err(Refusal::Odd);
    }
    if crate::MOST < points.len() / 2 {
        return Err(Refusal::TooMany);
    }
    Ok(())
}

// What is asked of its coordinates: that they are within the bound.
pub fn within(bound: u32, points: &[i32]) -> Result<(), Refusal>
    requires { bound ≤ limit }
    ensures { told result ≡ first_of (off bound points.now) }
{
    if !all_on_grid(bound, points) {
        return Err(Refusal::OffGrid);
    }
    Ok(())
}

// What every call asks of a row of coordinates within the bound: its first refusal, if any.
pub fn domain(bound: u32, points: &[i32]) -> Result<(), Refusal>
    requires { bound ≤ limit }
    ensures { told result ≡ first_of (domain_of bound points.now) }
{
    size(points)?;
    within(bound, points)
}
