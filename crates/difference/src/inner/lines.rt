// What two contours are to each other.
ghost use Rattle.std.specs.Prelude.{◌≡◌};
ghost use Rattle.grid.specs.Domain.{count, Contour};
ghost use Rattle.difference.specs.Lines.{first_other as first_other_of, compared, row as row_of};
ghost use Rattle.difference.specs.inside.Sets.{Long};

use crate::kind;

// What two contours are to each other, with the place where there is one to say.
#[derive(Clone, Copy)]
pub enum Line {
    Same,
    Elsewhere(usize),
    Different(usize),
    OnlyFirst,
    OnlySecond,
}

impl Line {
    // As it is written to a row: its kind, and its place, or 0.
    pub fn row(self) -> [usize; 2]
        ensures { result ≡ row_of self }
    {
        match self {
            Line::Same => [kind::SAME, 0],
            Line::Elsewhere(s) => [kind::ELSEWHERE, s],
            Line::Different(d) => [kind::DIFFERENT, d],
            Line::OnlyFirst => [kind::ONLY_FIRST, 0],
            Line::OnlySecond => [kind::ONLY_SECOND, 0],
        }
    }
}

// The first of n positions at which two contours differ; n where they do not.
fn first_other(first: &[i32], second: &[i32], n: usize) -> usize
    requires { Long first.now n × Long second.now n }
    ensures { result ≡ first_other_of first.now second.now n }
{
    turned::inner::level(first, 0, second, 0, n)
}

// The line of two contours. Those that are the same are told by one look at both.
pub fn of_two(first: &[i32], second: &[i32]) -> Line
    requires { Contour first.now (count first.now) × Contour second.now (count second.now) }
    ensures { result ≡ compared first.now second.now }
{
    let m = first.len() / 2;
    let n = second.len() / 2;
    let d = first_other(first, second, m.min(n));
    if m != n {
        return Line::Different(d);
    }
    if d == n {
        return Line::Same;
    }
    let s = turned::inner::start(first, second, n);
    if s < n {
        return Line::Elsewhere(s);
    }
    Line::Different(d)
}
