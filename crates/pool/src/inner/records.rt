// The records of a pool, each a start, an end, a tool and a press.
ghost use Rattle.std.specs.Prelude.{◌≡◌, ◌&&◌, ◌≤◌, leb, length, take, MatchOption};
ghost use Rattle.pool.specs.Lists.{holding as holding_of};
ghost use Rattle.pool.specs.Rows.{slot, slots, follows as follows_of};
ghost use Rattle.pool.specs.Outcome.{own_slots};
ghost use Rattle.pool.specs.inside.Records.{Newest, Found};

pub const CAPACITY: usize = 65536;

pub const RESERVE: usize = 16384;

// Whether a record starts at `at`, does not run backward, has a tool and a press, and ends within the places.
pub fn follows(at: usize, places: usize, r: [usize; 4]) -> bool
    ensures { result ≡ (follows_of at (slot r) && leb (slot r).end places) }
{
    let [start, end, tool, press] = r;
    (((at == start) & (at <= end)) & ((tool <= 255) & (press <= 1))) & (end <= places)
}

// How many points a contour of n holds: an empty one counts as one.
pub fn holding(n: usize) -> usize
    ensures { result ≡ holding_of n }
{
    n.max(1)
}

// How many of the first n records are a press's.
pub fn count(records: &[[usize; 4]], n: usize, press: usize) -> usize
    requires { n ≤ length records.now }
    ensures { result ≡ length (own_slots press (take n (slots records.now))) }
{
    records[..n].iter().filter(|r| r[3] == press).count()
}

// Where number k of a press stands among the first n records.
pub fn find(records: &[[usize; 4]], n: usize, press: usize, k: usize) -> Option<usize>
    requires { n ≤ length records.now }
    ensures { MatchOption result (length (own_slots press (take n (slots records.now))) ≤ k)
        (Found press k n records.now) }
{
    let mut rest = k;
    for i in 0..n {
        if records[i][3] == press {
            if rest == 0 {
                return Some(i);
            }
            rest -= 1;
        }
    }
    None
}

// The newest of a press among the first n records: its number from 1, or 0.
// No Option: `Newest` says it of a number, and the crate shift rests on that contract.
pub fn newest(records: &[[usize; 4]], n: usize, press: usize) -> usize
    requires { n ≤ length records.now }
    ensures { Newest press n records.now result }
{
    records[..n]
        .iter()
        .rposition(|r| r[3] == press)
        .map_or(0, |i| i + 1)
}
