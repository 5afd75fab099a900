// Figures added up, number by number.
ghost use Rattle.std.specs.Prelude.{◌≡◌, ◌+◌, ◌≤◌, length};
ghost use Rattle.figures.specs.Joining.{most_counted, total as total_of, added_up, in_all, sum as sum_of, possible as possible_of, fits as fits_in};
ghost use Rattle.figures.specs.inside.Adding.{Joinable};

use crate::answer::Figures;

// The sum of a row of totals.
fn total(row: &[u32]) -> u64
    requires { length row.now ≡ 22 }
    ensures { result ≡ total_of row.now }
{
    row.iter().map(|n| u64::from(*n)).sum()
}

// How many contours and refused sets are counted in all.
pub fn counted(f: Figures) -> u64
    ensures { result ≡ in_all f }
{
    total(&f.totals)
}

// Adds other totals to a row of them.
fn add_totals(row: &mut [u32], other: &[u32])
    requires { (length row.old ≡ length other.now)
        × (total_of row.old + total_of other.now ≤ most_counted) }
    ensures { row.new ≡ added_up row.old other.now }
{
    for (i, more) in other.iter().enumerate() {
        row[i] += *more;
    }
}

// Whether sets can have the figures, the totals aside.
pub fn possible(f: Figures) -> bool
    ensures { result ≡ possible_of f }
{
    if 4_294_901_760 < f.before {
        return false;
    }
    if 4_294_901_760 < f.after {
        return false;
    }
    if 17_179_017_225 < f.decisions {
        return false;
    }
    -140_735_340_871_680 <= f.high && f.high <= 140_735_340_871_679
}

// Whether sets can have the figures, and so many more contours and refused sets are not too many.
pub fn fits(f: Figures, more: u64) -> bool
    ensures { result ≡ fits_in f more }
{
    let count = counted(f);
    if 65535 < count {
        return false;
    }
    if 65535 - count < more {
        return false;
    }
    possible(f)
}

// Two figures added up: what the lows carry goes onto the highs.
pub fn sum(f: Figures, g: Figures) -> Figures
    requires { Joinable f g }
    ensures { result ≡ sum_of f g }
{
    let mut totals = f.totals;
    add_totals(&mut totals, &g.totals);
    let low = f.low as u64 + g.low as u64;
    let carry = low / 4_294_967_296;
    let high = f.high + g.high;
    Figures {
        totals,
        before: f.before + g.before,
        after: f.after + g.after,
        decisions: f.decisions + g.decisions,
        high: high + carry as i64,
        low: (low % 4_294_967_296) as u32,
    }
}
