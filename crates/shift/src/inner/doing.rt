// Each request of a shift, done on rows that hold a pool.
ghost use mathlib.Core.Path.{◌≡◌};
ghost use Prim.Native.Nat.{◌+◌, ◌-◌, ◌<◌, ◌≤◌, ◌^◌};
ghost use lib.ListN.{length};
ghost use Rattle.pool.specs.Lists.{holding};
ghost use Rattle.pool.specs.Rows.{lent};
ghost use Rattle.pool.specs.inside.Surveys.{with_more, share_of};
ghost use Rattle.ring.specs.declared.Rule as R;
ghost use Rattle.shift.specs.Steps.Request.{adds, removes, cleans, asks};
ghost use Rattle.shift.specs.States.{yes_or_no};
ghost use Rattle.shift.specs.inside.Doing.{Held, Did, ended, with_less};
ghost use Rattle.sifting.specs.inside.Cleaning.{HasScratch, field};

use crate::inner::asking;
use grid::Point;
use pool::inner::survey::Survey;
use pool::inner::{adding, changing, records, survey};
use replies::Refusal;
use ring::Rule;
use sifting::inner::cleaning;

// The result of a request that is done, and what is counted of the pool then.
#[derive(Clone, Copy)]
pub struct Done {
    pub result: usize,
    pub contours: usize,
    pub found: Survey,
}

// The survey with a contour of n points more.
fn more(found: Survey, second: bool, n: usize) -> Survey
    requires { (found.points + n < 2 ^ 64) × (share_of second found + holding n < 2 ^ 64) }
    ensures { result ≡ with_more second n found }
{
    let size = records::holding(n);
    let points = found.points + n;
    if second {
        return Survey {
            points,
            second: found.second + size,
            ..found
        };
    }
    Survey {
        points,
        first: found.first + size,
        ..found
    }
}

// The survey with one less.
fn less(found: Survey, second: bool, n: usize) -> Survey
    requires { (n ≤ found.points) × (holding n ≤ share_of second found) }
    ensures { result ≡ with_less second n found }
{
    let size = records::holding(n);
    let points = found.points - n;
    if second {
        return Survey {
            points,
            second: found.second - size,
            ..found
        };
    }
    Survey {
        points,
        first: found.first - size,
        ..found
    }
}

// A press adds a contour.
pub fn add(
    points: &mut [i32],
    records: &mut [[usize; 4]],
    n: usize,
    found: Survey,
    second: bool,
    contour: &[i32],
) -> Result<Done, Refusal>
    requires { Held (lent points.old records.old n) found }
    ensures { Did (adds second contour.now) (lent points.old records.old n)
        (ended n found result) (lent points.new records.new (ended n found result).contours) }
{
    adding::add_surveyed(points, records, n, found, second, 0, contour)?;
    Ok(Done {
        result: 0,
        contours: n + 1,
        found: more(found, second, contour.len() / 2),
    })
}

// How many points record k names.
fn size(records: &[[usize; 4]], k: usize) -> usize
    requires { (k < length records.now) × (field records.now k 0 ≤ field records.now k 1) }
    ensures { result ≡ field records.now k 1 - field records.now k 0 }
{
    records[k][1] - records[k][0]
}

// A press removes its newest contour, and those behind it move down.
pub fn remove(
    points: &mut [i32],
    records: &mut [[usize; 4]],
    n: usize,
    found: Survey,
    second: bool,
) -> Result<Done, Refusal>
    requires { Held (lent points.old records.old n) found }
    ensures { Did (removes second) (lent points.old records.old n)
        (ended n found result) (lent points.new records.new (ended n found result).contours) }
{
    let newest = records::newest(records, n, survey::number(second));
    if newest == 0 {
        return Err(Refusal::NoneLeft);
    }
    let size = size(records, newest - 1);
    changing::take_out(points, records, n, found.points, newest);
    Ok(Done {
        result: 0,
        contours: n - 1,
        found: less(found, second, size),
    })
}

// All contours are cleaned by a rule.
pub fn clean(
    rule: Rule,
    points: &mut [i32],
    records: &mut [[usize; 4]],
    n: usize,
    found: Survey,
    next: &mut [u32],
    prev: &mut [u32],
    mark: &mut [u8],
) -> Result<Done, Refusal>
    requires { Held (lent points.old records.old n) found × HasScratch next.old prev.old mark.old }
    ensures { Did (cleans rule) (lent points.old records.old n)
        (ended n found result) (lent points.new records.new (ended n found result).contours) }
{
    let cleaned = cleaning::clean(rule, points, records, n, next, prev, mark);
    Ok(Done {
        result: cleaned.decisions,
        contours: cleaned.contours,
        found: Survey {
            sound: true,
            points: cleaned.points,
            first: cleaned.held - cleaned.second,
            second: cleaned.second,
        },
    })
}

// Yes or no, as a result.
fn as_result(yes: bool) -> usize
    ensures { result ≡ yes_or_no yes }
{
    usize::from(yes)
}

// A point is asked of a press's contours.
pub fn ask(
    points: &[i32],
    records: &[[usize; 4]],
    n: usize,
    found: Survey,
    second: bool,
    p: Point,
) -> Result<Done, Refusal>
    requires { Held (lent points.now records.now n) found }
    ensures { Did (asks second p) (lent points.now records.now n)
        (ended n found result) (lent points.now records.now (ended n found result).contours) }
{
    if !grid::point_on_grid(p) {
        return Err(Refusal::OffGrid);
    }
    let yes = asking::has(points, records, n, survey::number(second), p);
    Ok(Done {
        result: as_result(yes),
        contours: n,
        found,
    })
}
