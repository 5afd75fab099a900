// A look at all records of a pool.
ghost use Rattle.std.specs.Prelude.{◌≡◌, false, ◌+◌, ◌<◌, ◌^◌};
ghost use Rattle.pool.specs.Rows.{lent, fair as fair_of};
ghost use Rattle.pool.specs.Outcome.{number as number_of_lem};
ghost use Rattle.pool.specs.inside.Surveys.{Surveyed, share_of};

use crate::inner::records;

// What a survey finds: whether the records are sound, and then the points and what each press holds.
// No Option: the promise `Surveyed` speaks of the four fields, and the crate shift changes them.
#[derive(Clone, Copy)]
pub struct Survey {
    pub sound: bool,
    pub points: usize,
    pub first: usize,
    pub second: usize,
}

// The number of a press.
pub fn number(second: bool) -> usize
    ensures { result ≡ number_of_lem second }
{
    usize::from(second)
}

// What a press holds.
pub fn share(found: Survey, second: bool) -> usize
    ensures { result ≡ share_of second found }
{
    if second { found.second } else { found.first }
}

// Whether neither press holds any of what is kept for the other, and both no more than the pool.
fn fair(first: usize, second: usize) -> bool
    requires { first + second < 2 ^ 64 }
    ensures { result ≡ fair_of first second }
{
    let most = records::CAPACITY - records::RESERVE;
    ((first <= most) & (second <= most)) & (first + second <= records::CAPACITY)
}

fn unsound() -> Survey
    ensures { result ≡ record { sound = false; points = 0; first = 0; second = 0 } }
{
    Survey {
        sound: false,
        points: 0,
        first: 0,
        second: 0,
    }
}

// One look at each of the first n records, up to one that does not follow, so that what is summed up lies within the places.
pub fn surveyed(points: &[i32], records: &[[usize; 4]], n: usize) -> Survey
    ensures { Surveyed (lent points.now records.now n) result }
{
    let places = points.len() / 2;
    if records.len() < n {
        return unsound();
    }
    let mut at = 0;
    let mut all = 0;
    let mut second = 0;
    for record in &records[..n] {
        if !records::follows(at, places, *record) {
            return unsound();
        }
        let [_, end, _, press] = *record;
        let size = records::holding(end - at);
        all += size;
        // The press is 0 or 1.
        second += press * size;
        at = end;
    }
    let first = all - second;
    Survey {
        sound: fair(first, second),
        points: at,
        first,
        second,
    }
}
