// A file, read and counted.
ghost use Rattle.std.specs.Prelude.{◌≡◌, ◌≤◌, ◌<◌};
ghost use Rattle.grid.specs.Domain.{count as count_of};
ghost use Rattle.buffer.specs.Spans.{spans};
ghost use Rattle.buffer.specs.Sets.{contours as contours_of};
ghost use Rattle.difference.specs.inside.Sets.{Sound};
ghost use Rattle.figures.specs.Joining.{added_as};
ghost use Rattle.report.specs.Listing.{rule_of, most_listed};
ghost use Rattle.week.specs.Counting.{taken, found_file, with_found, with_file};

use crate::{CONTOURS, NUMBERS, POINTS, Week};
use figures::Figures;
use figures::inner::adding;
use replies::Refusal;

// The figures with a set of a file of this edition.
fn add_set(
    f: Figures,
    second: bool,
    points: &[i32],
    contours: &[[usize; 2]],
) -> Result<Figures, Refusal>
    requires { Sound points.now contours.now × (count_of points.now ≤ most_listed) }
    ensures { added_as f result
        ≡ with_found f (taken (rule_of second) (contours_of points.now (spans contours.now))) }
{
    let mut next = [0u32; POINTS];
    let mut prev = [0u32; POINTS];
    let mut mark = [0u8; POINTS];
    let mut out = [0i32; NUMBERS];
    if second {
        return figures::add_despiked(
            f, points, contours, &mut next, &mut prev, &mut mark, &mut out,
        );
    }
    figures::add_simplified(
        f, points, contours, &mut next, &mut prev, &mut mark, &mut out,
    )
}

// The figures with a file more, or 21.
pub fn add_file(f: Figures, bytes: &[u8]) -> Result<Figures, Refusal>
    ensures { added_as f result ≡ with_found f (found_file bytes.now) }
{
    let mut points = [0i32; NUMBERS];
    let mut ranges = [[0usize; 2]; CONTOURS];
    let mut shapes = [[0usize; 2]; CONTOURS];
    let read = match setfile::read(bytes, &mut points, &mut ranges, &mut shapes) {
        Ok(carried) => carried,
        Err(refusal) => return adding::add_refused(f, refusal),
    };
    let n = 2 * read.sizes.points;
    let k = read.sizes.contours;
    add_set(f, read.edition == 2, &points[..n], &ranges[..k])
}

// The week with one file more; where that is one too many nothing is counted, and the week is full.
pub fn count(week: Week, bytes: &[u8], untold: bool) -> Week
    requires { week.files < 4294967295 }
    ensures { result ≡ with_file week untold (with_found week.figures (found_file bytes.now)) }
{
    match add_file(week.figures, bytes) {
        Ok(figures) => Week {
            figures,
            files: week.files + 1,
            full: false,
            untold,
        },
        Err(_) => Week {
            full: true,
            untold,
            ..week
        },
    }
}
