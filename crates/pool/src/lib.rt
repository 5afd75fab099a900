// A pool of contours that two presses share. It lies in rows of the caller's: the points of its contours, a record for each contour, which has its start, its end, its tool and its press, and the count of the records in use.
#![tactic(auto)]

pub mod inner;

ghost use Rattle.std.specs.Prelude.{◌≡◌};
ghost use Rattle.replies.specs.Refusals.{told};
ghost use Rattle.rows.specs.Parts.{part};
ghost use Rattle.buffer.specs.Answers.{counted_as};
ghost use Rattle.pool.specs.Calls.Call.{add as adding, remove as removing};
ghost use Rattle.pool.specs.Rows.{lent};
ghost use Rattle.pool.specs.Outcome.{leaving, called, number, contours_count, held_count, free_count, contour_of};

use inner::{changing, records, survey};
use replies::Refusal;

// A press adds a contour, which becomes its newest; its tool is 0.
pub fn add(
    points: &mut [i32],
    records: &mut [[usize; 4]],
    contours: &mut usize,
    second: bool,
    contour: &[i32],
) -> Result<(), Refusal>
    ensures { leaving (told result) points.new records.new contours.new
        ≡ called (number second) (adding 0 contour.now)
        (lent points.old records.old contours.old) }
{
    let n = *contours;
    let found = survey::surveyed(points, records, n);
    inner::adding::add_surveyed(points, records, n, found, second, 0, contour)?;
    *contours = n + 1;
    Ok(())
}

// A press removes its newest contour; later ones move down.
pub fn remove(
    points: &mut [i32],
    records: &mut [[usize; 4]],
    contours: &mut usize,
    second: bool,
) -> Result<(), Refusal>
    ensures { leaving (told result) points.new records.new contours.new
        ≡ called (number second) removing
        (lent points.old records.old contours.old) }
{
    let n = *contours;
    let found = survey::surveyed(points, records, n);
    if !found.sound {
        return Err(Refusal::Ranges);
    }
    let newest = records::newest(records, n, survey::number(second));
    if newest == 0 {
        return Err(Refusal::NoneLeft);
    }
    changing::take_out(points, records, n, found.points, newest);
    *contours = n - 1;
    Ok(())
}

// How many contours a press has.
pub fn contours_count(
    points: &[i32],
    records: &[[usize; 4]],
    contours: usize,
    second: bool,
) -> Result<usize, Refusal>
    ensures { counted_as result ≡ contours_count (number second) (lent points.now records.now contours) }
{
    let found = survey::surveyed(points, records, contours);
    if !found.sound {
        return Err(Refusal::Ranges);
    }
    Ok(records::count(records, contours, survey::number(second)))
}

// How many points a press holds; an empty contour counts as one.
pub fn held(
    points: &[i32],
    records: &[[usize; 4]],
    contours: usize,
    second: bool,
) -> Result<usize, Refusal>
    ensures { counted_as result ≡ held_count (number second) (lent points.now records.now contours) }
{
    let found = survey::surveyed(points, records, contours);
    if !found.sound {
        return Err(Refusal::Ranges);
    }
    Ok(survey::share(found, second))
}

// The free count: the pool less all held.
pub fn free(points: &[i32], records: &[[usize; 4]], contours: usize) -> Result<usize, Refusal>
    ensures { counted_as result ≡ free_count (lent points.now records.now contours) }
{
    let found = survey::surveyed(points, records, contours);
    if !found.sound {
        return Err(Refusal::Ranges);
    }
    Ok(records::CAPACITY - (found.first + found.second))
}

// Contour number k of a press, as a part of the points; the empty part at their front where it is not there.
pub fn contour_of<'a>(
    points: &'a [i32],
    records: &[[usize; 4]],
    contours: usize,
    second: bool,
    k: usize,
) -> &'a [i32]
    ensures { part result ≡ contour_of (part points.entry) records.now contours (number second) k }
{
    let found = survey::surveyed(points, records, contours);
    if !found.sound {
        return &points[..0];
    }
    let Some(at) = records::find(records, contours, survey::number(second), k) else {
        return &points[..0];
    };
    let [start, end, ..] = records[at];
    buffer::inner::parts::between(points, start, end)
}
