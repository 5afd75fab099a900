// One contour, cleaned behind what is written.
ghost use Rattle.std.specs.Prelude.{◌≡◌};
ghost use Rattle.clean.specs.Outcome.{as_cleaned};
ghost use Rattle.sets.specs.inside.Contour.{Cleanable, Fated, Placeable, Notable, noted, noting, Behind, reached};

use clean::Cleaning;
use clean::inner::look;
use ring::Rule;

// How far a cleaning has come: how many points and contours are written, after how many decisions and turns.
#[derive(Clone, Copy)]
pub struct Progress {
    pub points: usize,
    pub contours: usize,
    pub decisions: usize,
    pub turns: usize,
}

// Whether what was cleaned stays, and how far the cleaning has come.
#[derive(Clone, Copy)]
pub struct Tried {
    pub stays: bool,
    pub progress: Progress,
}

// A contour in front of the output: copied where it passes its verdict, and walked otherwise, from where the look at it
// stopped.
fn one(
    rule: Rule,
    contour: &[i32],
    next: &mut [u32],
    prev: &mut [u32],
    mark: &mut [u8],
    out: &mut [i32],
) -> Cleaning
    requires { Cleanable contour.now next.old prev.old mark.old out.old }
    ensures { Fated rule contour.now out.old (as_cleaned result) out.new }
{
    let n = contour.len() / 2;
    if n < 3 {
        return Cleaning {
            kept: None,
            decisions: 0,
            turns: 0,
        };
    }
    let look = look::look_over(rule, contour, n);
    if look.passes {
        rows::inner::copy(contour, out, 0);
        return Cleaning {
            kept: Some(n),
            decisions: 0,
            turns: 0,
        };
    }
    clean::inner::settling::settle_from(
        rule,
        contour,
        look.standing,
        &mut next[..n],
        &mut prev[..n],
        &mut mark[..n],
        out,
    )
}

// How far the cleaning has come with a contour: where it stays its range is written behind the others.
fn note(cleaned: Cleaning, at: Progress, records: &mut [[usize; 2]]) -> Tried
    requires { Notable (as_cleaned cleaned) at records.old }
    ensures { noted result records.new
        ≡ noting (as_cleaned cleaned).reply (as_cleaned cleaned) at records.old }
{
    let counted = Progress {
        decisions: at.decisions + cleaned.decisions,
        turns: at.turns + cleaned.turns,
        ..at
    };
    let Some(points) = cleaned.kept else {
        return Tried {
            stays: false,
            progress: counted,
        };
    };
    let end = at.points + points;
    records[at.contours] = [at.points, end];
    Tried {
        stays: true,
        progress: Progress {
            points: end,
            contours: at.contours + 1,
            ..counted
        },
    }
}

// A contour behind what is written, with its range.
pub fn behind(
    rule: Rule,
    contour: &[i32],
    at: Progress,
    next: &mut [u32],
    prev: &mut [u32],
    mark: &mut [u8],
    out: &mut [i32],
    records: &mut [[usize; 2]],
) -> Tried
    requires { Placeable contour.now at next.old prev.old mark.old out.old records.old }
    ensures { Behind rule contour.now (reached at out.old records.old)
        result out.new records.new }
{
    let from = 2 * at.points;
    let cleaned = one(rule, contour, next, prev, mark, &mut out[from..]);
    note(cleaned, at, records)
}
