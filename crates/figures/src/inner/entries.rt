// The figures of one contour, and of one refused set.
ghost use Rattle.std.specs.Prelude.{◌≡◌, [], ◌∷◌, ◌<◌};
ghost use Rattle.sets.specs.inside.Contour.{Cleanable};
ghost use Rattle.figures.specs.Halves.{high as high_of, low as low_of};
ghost use Rattle.figures.specs.Entries.{entry};
ghost use Rattle.figures.specs.Batch.{numbers, figures_of};
ghost use Rattle.figures.specs.inside.Adding.{Counts};

use crate::answer::Figures;
use ring::Rule;

// An area as high * 2^32 + low.
#[derive(Clone, Copy)]
pub struct Halves {
    pub high: i64,
    pub low: u32,
}

// Both are rounded down.
fn split(area: i64) -> Halves
    ensures { (result.high ≡ high_of area) × (result.low ≡ low_of area) }
{
    Halves {
        high: area.div_euclid(4_294_967_296),
        low: area.rem_euclid(4_294_967_296) as u32,
    }
}

// The figures of one entry.
pub fn of_entry(reply: usize, before: u64, after: u64, decisions: u64, area: i64) -> Figures
    requires { reply < numbers }
    ensures { result ≡ figures_of (entry reply before after decisions area ∷ []) }
{
    let mut totals = [0u32; 22];
    totals[reply] = 1;
    let parts = split(area);
    Figures {
        totals,
        before,
        after,
        decisions,
        high: parts.high,
        low: parts.low,
    }
}

// The figures of one contour, cleaned alone in front of the output.
pub fn of_contour(
    rule: Rule,
    contour: &[i32],
    next: &mut [u32],
    prev: &mut [u32],
    mark: &mut [u8],
    out: &mut [i32],
) -> Figures
    requires { Cleanable contour.now next.old prev.old mark.old out.old }
    ensures { Counts rule contour.now out.old result out.new }
{
    let n = contour.len() / 2;
    let cleaned = clean::inner::settling::settle(
        rule,
        contour,
        &mut next[..n],
        &mut prev[..n],
        &mut mark[..n],
        out,
    );
    let decisions = cleaned.decisions as u64;
    let Some(kept) = cleaned.kept else {
        return of_entry(replies::COLLAPSED as usize, n as u64, 0, decisions, 0);
    };
    let area = area::inner::doubled_area(contour);
    of_entry(0, n as u64, kept as u64, decisions, area)
}
