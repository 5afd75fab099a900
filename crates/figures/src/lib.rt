// The weekly figures: what any number of sets came to, up to 65,535 contours and refused sets in all.
#![tactic(auto)]

pub mod answer;
pub mod inner;

ghost use Rattle.std.specs.Prelude.{◌≡◌, [], ◌++◌, length};
ghost use lib.Dec.{leb};
ghost use Rattle.replies.specs.Ladder.{first_of, room};
ghost use Rattle.replies.specs.Refusals.{told};
ghost use Rattle.grid.specs.Domain.{count};
ghost use Rattle.ring.specs.declared.Rule as R;
ghost use Rattle.clean.specs.Outcome.{scratch, lent};
ghost use Rattle.buffer.specs.Contours.{refusals};
ghost use Rattle.figures.specs.Batch.{figures_of};
ghost use Rattle.figures.specs.Joining.{added_as, joined_figures};
ghost use Rattle.figures.specs.Adding.{leaving, add_outcome};

pub use answer::{Added, Figures};
use inner::{adding, sums};
use replies::Refusal;
use ring::Rule;
use sets::inner::lacking;

// The figures of no sets.
pub fn none() -> Figures
    ensures { result ≡ figures_of [] }
{
    Figures {
        totals: [0u32; 22],
        before: 0,
        after: 0,
        decisions: 0,
        high: 0,
        low: 0,
    }
}

// The figures of two batches together, or 21.
pub fn joined(f: Figures, g: Figures) -> Result<Figures, Refusal>
    ensures { added_as f result ≡ joined_figures f g }
{
    if !sums::fits(f, sums::counted(g)) {
        return Err(Refusal::FiguresFull);
    }
    if !sums::possible(g) {
        return Err(Refusal::FiguresFull);
    }
    Ok(sums::sum(f, g))
}

// What a set that is brought asks: its first refusal, if any.
fn check(
    points: &[i32],
    contours: &[[usize; 2]],
    next: usize,
    prev: usize,
    mark: usize,
    out: usize,
) -> Result<(), Refusal>
    ensures { told result
        ≡ first_of (refusals points.now contours.now
        ++ (scratch (count points.now) next prev mark ++ room (leb (length points.now) out))) }
{
    buffer::contours::check(points, contours)?;
    lacking::rows(points.len() / 2, next, prev, mark, points.len() <= out)
}

// One set more, by a rule: each of its contours is cleaned alone and counts under its reply, or the set is refused and
// counts under its number; 21 where that would be too many, and all as it was.
fn add(
    f: Figures,
    rule: Rule,
    points: &[i32],
    contours: &[[usize; 2]],
    next: &mut [u32],
    prev: &mut [u32],
    mark: &mut [u8],
    out: &mut [i32],
) -> Result<Figures, Refusal>
    ensures { leaving (added_as f result) (lent next.new prev.new mark.new out.new)
        ≡ add_outcome f rule points.now contours.now
        (lent next.old prev.old mark.old out.old) }
{
    let n = points.len() / 2;
    if let Err(refusal) = check(
        points,
        contours,
        next.len(),
        prev.len(),
        mark.len(),
        out.len(),
    ) {
        return adding::add_refused(f, refusal);
    }
    if !sums::fits(f, contours.len() as u64) {
        return Err(Refusal::FiguresFull);
    }
    let all = adding::sweep(
        rule,
        points,
        contours,
        &mut next[..n],
        &mut prev[..n],
        &mut mark[..n],
        out,
    );
    Ok(sums::sum(f, all))
}

// One set more, whose contours lose their collinear points.
pub fn add_simplified(
    f: Figures,
    points: &[i32],
    contours: &[[usize; 2]],
    next: &mut [u32],
    prev: &mut [u32],
    mark: &mut [u8],
    out: &mut [i32],
) -> Result<Figures, Refusal>
    ensures { leaving (added_as f result) (lent next.new prev.new mark.new out.new)
        ≡ add_outcome f R.Rule.Collinear points.now contours.now
        (lent next.old prev.old mark.old out.old) }
{
    add(f, Rule::Collinear, points, contours, next, prev, mark, out)
}

// One set more, whose contours lose their spikes.
pub fn add_despiked(
    f: Figures,
    points: &[i32],
    contours: &[[usize; 2]],
    next: &mut [u32],
    prev: &mut [u32],
    mark: &mut [u8],
    out: &mut [i32],
) -> Result<Figures, Refusal>
    ensures { leaving (added_as f result) (lent next.new prev.new mark.new out.new)
        ≡ add_outcome f R.Rule.Spike points.now contours.now
        (lent next.old prev.old mark.old out.old) }
{
    add(f, Rule::Spike, points, contours, next, prev, mark, out)
}
