// The least rotation of a contour, by a race of two starts; and by those of two contours the smallest start from which one is the other.
ghost use Rattle.std.specs.Prelude.{◌≡◌, ◌+◌, ◌*◌, ◌%◌, ◌<◌, ◌≤◌, length};
ghost use Rattle.grid.specs.Domain.{Contour};
ghost use Rattle.turned.specs.Starts.{smallest_start};
ghost use Rattle.turned.specs.inside.Words.{key as key_of, keys, word, from, Least, Apart};
ghost use Rattle.turned.specs.inside.Races.{Racing};

use grid::Point;

// A number for every point, its own: LLVM reads it from a row at once.
pub fn key(p: Point) -> u64
    ensures { result ≡ key_of p }
{
    u64::from(p.y.cast_unsigned()) * 4_294_967_296 + u64::from(p.x.cast_unsigned())
}

// The position x of n, counted on past the end.
fn round(x: usize, n: usize) -> usize
    requires { x < n + n }
    ensures { result ≡ x % n }
{
    if x < n { x } else { x - n }
}

// The key of the point at that position.
fn key_at(row: &[i32], n: usize, x: usize) -> u64
    requires { Contour row.now n × (x < n + n) }
    ensures { result ≡ word row.now n x }
{
    key(grid::inner::point_at(row, round(x, n)))
}

// How far two rows agree, the first from position a on and the second from b on, of n points that both have there.
pub fn level(first: &[i32], a: usize, second: &[i32], b: usize, n: usize) -> usize
    requires { (2 * (a + n) ≤ length first.now) × (2 * (b + n) ≤ length second.now) }
    ensures { Apart (keys first.now a) (keys second.now b) n result }
{
    for k in 0..n {
        let one = key(grid::inner::point_at(first, a + k));
        let other = key(grid::inner::point_at(second, b + k));
        if one != other {
            return k;
        }
    }
    n
}

// How far the first contour from position i on and the second from position j on agree, of n points and around.
// It goes by runs in which neither comes to its end, at most three, so that the loop over points is short.
fn agree(first: &[i32], second: &[i32], n: usize, i: usize, j: usize) -> usize
    requires { Contour first.now n × Contour second.now n × (i < n) × (j < n) }
    ensures { Apart (from (word first.now n) i) (from (word second.now n) j) n result }
{
    let mut k: usize = 0;
    while k < n {
        let x = round(i + k, n);
        let y = round(j + k, n);
        let run = n - x.max(y).max(k);
        let r = level(first, x, second, y, run);
        if r < run {
            return k + r;
        }
        k += run;
    }
    n
}

// How far the rotations from two starts of a contour agree. Most part at once, so that is asked for first.
fn together(row: &[i32], n: usize, i: usize, j: usize) -> usize
    requires { Contour row.now n × (i < n) × (j < n) }
    ensures { Apart (from (word row.now n) i) (from (word row.now n) j) n result }
{
    if key_at(row, n, i) != key_at(row, n, j) {
        return 0;
    }
    agree(row, row, n, i, j)
}

// Where the least rotation of a contour begins first, after how many points the contour repeats, and in how many steps that was found.
#[derive(Clone, Copy)]
pub struct Turned {
    pub start: usize,
    pub period: usize,
    pub steps: usize,
}

// Two starts that race, i and j: each start before j but i has lost to another.
#[derive(Clone, Copy)]
struct Race {
    i: usize,
    j: usize,
}

// How the race goes on, where the rotations from both starts agree in k points. The one that has the greater key behind
// them loses, and with it the k starts behind it.
fn onward(row: &[i32], n: usize, race: Race, k: usize) -> Race
    requires { Contour row.now n
        × Racing (word row.now n) race.i race.j
        × Apart (from (word row.now n) race.i) (from (word row.now n) race.j) n k
        × (race.j < n)
        × (k < n) }
    ensures { Racing (word row.now n) result.i result.j
        × (race.i + race.j + k < result.i + result.j) }
{
    let a = key_at(row, n, race.i + k);
    let b = key_at(row, n, race.j + k);
    if a < b {
        return Race {
            i: race.i,
            j: race.j + k + 1,
        };
    }
    let i = race.j.max(race.i + k + 1);
    Race { i, j: i + 1 }
}

// Runs the race until one start is left, or both agree in all points. Its steps are the points in which two rotations are held
// to each other: in each round those that agree, and the one behind them.
fn least(row: &[i32], n: usize) -> Turned
    requires { Contour row.now n × (0 < n) }
    ensures { Least (word row.now n) n result.start result.period × (result.steps ≤ 3 * n) }
{
    let mut race = Race { i: 0, j: 1 };
    let mut steps: usize = 0;
    while race.j < n {
        let k = together(row, n, race.i, race.j);
        if k == n {
            return Turned {
                start: race.i,
                period: race.j - race.i,
                steps: steps + n,
            };
        }
        race = onward(row, n, race, k);
        steps += k + 1;
    }
    Turned {
        start: race.i,
        period: n,
        steps,
    }
}

// The smallest start in the second contour from which it is the first; n where there is none.
// One is the other from some start on just where their least rotations are equal.
pub fn start(first: &[i32], second: &[i32], n: usize) -> usize
    requires { Contour first.now n × Contour second.now n × (0 < n) }
    ensures { result ≡ smallest_start first.now second.now n }
{
    let a = least(first, n);
    let b = least(second, n);
    let i = a.start;
    let j = b.start;
    let period = b.period;
    if agree(first, second, n, i, j) < n {
        return n;
    }
    (j + n - i) % period
}
