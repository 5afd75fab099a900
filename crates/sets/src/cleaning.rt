// The cleaning of a shape and of shapes: what it refuses, and what it answers.
ghost use Rattle.std.specs.Prelude.{◌≡◌, []};
ghost use Rattle.sets.specs.Outcome.{answer, as_cleaned, cleaned_as, lent, leaving, shape_outcome, shapes_outcome};
ghost use Rattle.sets.specs.inside.Shape.{shape_answer};

use crate::inner::contour::{Progress, Tried};
use crate::inner::{lacking, shapes};
use buffer::Sizes;
use replies::Refusal;
use ring::Rule;

// How the cleaning of a set ended: how many of each are kept, and nothing of a shape that collapsed with its first contour;
// after how many decisions, and in how many turns.
#[derive(Clone, Copy, Debug, PartialEq, Eq)]
pub struct SetCleaning {
    pub kept: Option<Sizes>,
    pub decisions: usize,
    pub turns: usize,
}

// The same for C: its reply number, and 0 of each where it is refused or collapsed.
#[repr(C)]
#[derive(Clone, Copy)]
pub struct CleanedSet {
    pub reply: u32,
    pub points: usize,
    pub contours: usize,
    pub shapes: usize,
    pub decisions: usize,
    pub turns: usize,
}

impl From<Result<SetCleaning, Refusal>> for CleanedSet {
    ghost use Rattle.sets.specs.Outcome.{cleaned_as};

    ghost from_gives = { λ answer told. told ≡ cleaned_as answer };

    fn from(answer: Result<SetCleaning, Refusal>) -> CleanedSet {
        let nothing = CleanedSet {
            reply: 0,
            points: 0,
            contours: 0,
            shapes: 0,
            decisions: 0,
            turns: 0,
        };
        let cleaning = match answer {
            Ok(cleaning) => cleaning,
            Err(refusal) => {
                return CleanedSet {
                    reply: refusal.number(),
                    ..nothing
                };
            }
        };
        let walked = CleanedSet {
            decisions: cleaning.decisions,
            turns: cleaning.turns,
            ..nothing
        };
        match cleaning.kept {
            Some(sizes) => CleanedSet {
                points: sizes.points,
                contours: sizes.contours,
                shapes: sizes.shapes,
                ..walked
            },
            None => CleanedSet {
                reply: replies::COLLAPSED,
                ..walked
            },
        }
    }
}

// What is kept of a set, of so many shapes.
fn kept(progress: Progress, shapes: usize) -> SetCleaning
    ensures { as_cleaned result
        ≡ answer 0 progress.points progress.contours shapes progress.decisions progress.turns }
{
    SetCleaning {
        kept: Some(Sizes {
            points: progress.points,
            contours: progress.contours,
            shapes,
        }),
        decisions: progress.decisions,
        turns: progress.turns,
    }
}

// The answer of a shape: it is kept, or collapsed with its first contour.
fn shape_answer(tried: Tried) -> SetCleaning
    ensures { as_cleaned result ≡ shape_answer tried.stays tried.progress }
{
    let progress = tried.progress;
    if tried.stays {
        return kept(progress, 1);
    }
    SetCleaning {
        kept: None,
        decisions: progress.decisions,
        turns: progress.turns,
    }
}

// A shape cleaned by a rule: refused, or kept in front of the rows, or collapsed with its first contour.
pub fn clean_shape(
    rule: Rule,
    points: &[i32],
    ranges: &[[usize; 2]],
    next: &mut [u32],
    prev: &mut [u32],
    mark: &mut [u8],
    out: &mut [i32],
    records: &mut [[usize; 2]],
) -> Result<SetCleaning, Refusal>
    ensures { leaving (cleaned_as result)
        (lent next.new prev.new mark.new
        out.new records.new [])
        ≡ shape_outcome rule points.now ranges.now
        (lent next.old prev.old mark.old
        out.old records.old []) }
{
    let n = points.len() / 2;
    let room = (points.len() <= out.len()) & (ranges.len() <= records.len());
    buffer::contours::check(points, ranges)?;
    lacking::rows(n, next.len(), prev.len(), mark.len(), room)?;
    let tried = shapes::sweep_shape(
        rule,
        points,
        ranges,
        &mut next[..n],
        &mut prev[..n],
        &mut mark[..n],
        out,
        records,
    );
    Ok(shape_answer(tried))
}

// Shapes cleaned by a rule: refused, or those that stand kept in front of the rows.
pub fn clean_shapes(
    rule: Rule,
    points: &[i32],
    contours: &[[usize; 2]],
    shapes: &[[usize; 2]],
    next: &mut [u32],
    prev: &mut [u32],
    mark: &mut [u8],
    out: &mut [i32],
    records: &mut [[usize; 2]],
    groups: &mut [[usize; 2]],
) -> Result<SetCleaning, Refusal>
    ensures { leaving (cleaned_as result)
        (lent next.new prev.new mark.new
        out.new records.new groups.new)
        ≡ shapes_outcome rule points.now contours.now shapes.now
        (lent next.old prev.old mark.old
        out.old records.old groups.old) }
{
    let n = points.len() / 2;
    let room = (points.len() <= out.len())
        & (contours.len() <= records.len())
        & (shapes.len() <= groups.len());
    buffer::shapes::check(points, contours, shapes)?;
    lacking::rows(n, next.len(), prev.len(), mark.len(), room)?;
    let at = shapes::sweep_shapes(
        rule,
        points,
        contours,
        shapes,
        &mut next[..n],
        &mut prev[..n],
        &mut mark[..n],
        out,
        records,
        groups,
    );
    Ok(kept(at.progress, at.shapes))
}
