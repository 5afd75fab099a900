// The figures of a set: of its contours, one after the other, or of its refusal.
ghost use Rattle.std.specs.Prelude.{◌≡◌, [], ◌∷◌};
ghost use Rattle.replies.specs.Ladder.{first_of};
ghost use Rattle.replies.specs.Refusals.{number};
ghost use Rattle.sets.specs.inside.Shape.{Zeroed};
ghost use Rattle.figures.specs.Entries.{refused_set};
ghost use Rattle.figures.specs.Batch.{figures_of};
ghost use Rattle.figures.specs.Joining.{over, answered, added_as, fits as fits_in, sum as sum_of};
ghost use Rattle.figures.specs.inside.Adding.{Countable, CountsAll};

use crate::answer::Figures;
use crate::inner::{entries, sums};
use replies::Refusal;
use ring::Rule;

// The figures of the contours, cleaned one after the other.
fn each(
    rule: Rule,
    points: &[i32],
    contours: &[[usize; 2]],
    next: &mut [u32],
    prev: &mut [u32],
    mark: &mut [u8],
    out: &mut [i32],
) -> Figures
    requires { Countable points.now contours.now next.old prev.old mark.old out.old }
    ensures { CountsAll rule points.now contours.now out.old result out.new }
{
    let mut all = crate::none();
    for i in 0..contours.len() {
        let own = buffer::inner::parts::named(points, contours, i);
        let more = entries::of_contour(rule, own, next, prev, mark, out);
        all = sums::sum(all, more);
    }
    all
}

// The same, with the scratch zeroed after it.
pub fn sweep(
    rule: Rule,
    points: &[i32],
    contours: &[[usize; 2]],
    next: &mut [u32],
    prev: &mut [u32],
    mark: &mut [u8],
    out: &mut [i32],
) -> Figures
    requires { Countable points.now contours.now next.old prev.old mark.old out.old }
    ensures counts_all { CountsAll rule points.now contours.now out.old result out.new }
    ensures zeroed { Zeroed next.old prev.old mark.old
        next.new prev.new mark.new }
{
    let all = each(rule, points, contours, next, prev, mark, out);
    sets::inner::shapes::zero_scratch(next, prev, mark);
    all
}

// A refused set counts once, under its number.
pub fn add_refused(f: Figures, refusal: Refusal) -> Result<Figures, Refusal>
    ensures { added_as f result
        ≡ answered (first_of (over (fits_in f 1))) f
        (sum_of f (figures_of (refused_set (number refusal) ∷ []))) }
{
    if !sums::fits(f, 1) {
        return Err(Refusal::FiguresFull);
    }
    let number = refusal.number() as usize;
    Ok(sums::sum(f, entries::of_entry(number, 0, 0, 0, 0)))
}
