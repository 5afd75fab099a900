// Two sets compared, contour by contour: what is the same, what starts elsewhere, what differs, and what only one of them has. Nothing is copied.
#![tactic(auto)]

pub mod inner;
pub mod kind;
pub mod walker;

ghost use Rattle.std.specs.Prelude.{◌≡◌};
ghost use Rattle.difference.specs.Outcome.{answer, compared_as, leaving, outcome};

use crate::inner::listing;
use replies::Refusal;

// Why a comparison is refused: what one of the sets is refused for, or that the listing has no room.
#[derive(Clone, Copy, Debug, PartialEq, Eq)]
pub enum Refused {
    First(Refusal),
    Second(Refusal),
    Room,
}

// How a comparison ended, for C: its reply number; whose set was refused, 1 or 2, and 0 where none was; and how many contours are
// listed, 0 where it is refused.
#[repr(C)]
#[derive(Clone, Copy)]
pub struct Compared {
    pub reply: u32,
    pub refused: u32,
    pub contours: usize,
}

// Nothing was listed.
fn nothing(reply: u32, whose: u32) -> Compared
    ensures { result ≡ answer reply whose 0 }
{
    Compared {
        reply,
        refused: whose,
        contours: 0,
    }
}

impl From<Result<usize, Refused>> for Compared {
    ghost use Rattle.difference.specs.Outcome.{compared_as};

    ghost from_gives = { λ answer told. told ≡ compared_as answer };

    fn from(answer: Result<usize, Refused>) -> Compared {
        match answer {
            Ok(contours) => Compared {
                reply: 0,
                refused: 0,
                contours,
            },
            Err(Refused::First(refusal)) => nothing(refusal.number(), 1),
            Err(Refused::Second(refusal)) => nothing(refusal.number(), 2),
            Err(Refused::Room) => nothing(Refusal::Room.number(), 0),
        }
    }
}

// Lists what two sets are to each other: line k is of contour k, and behind the lines the row is as it was.
pub fn compare(
    points: &[i32],
    ranges: &[[usize; 2]],
    others: &[i32],
    other_ranges: &[[usize; 2]],
    listing: &mut [[usize; 2]],
) -> Result<usize, Refused>
    ensures { leaving (compared_as result) listing.new
        ≡ outcome points.now ranges.now others.now other_ranges.now
        listing.old }
{
    if let Err(refusal) = buffer::contours::check(points, ranges) {
        return Err(Refused::First(refusal));
    }
    if let Err(refusal) = buffer::contours::check(others, other_ranges) {
        return Err(Refused::Second(refusal));
    }
    let n = ranges.len().max(other_ranges.len());
    if listing.len() < n {
        return Err(Refused::Room);
    }
    listing::fill(points, ranges, others, other_ranges, n, listing);
    Ok(n)
}
