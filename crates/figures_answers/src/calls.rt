// The sets that are added, one after the other. A set is two pairs: the start and the end of its records, and those of its
// numbers.
use answers::lent::{Scratch, Walk};
use answers::told;
use answers::told::Told;
use cases::given::Set;
use cases::room;
use figures::Figures;
use replies::Refusal;

// Adds the sets of the records and numbers that are given, as the shapes say, and answers what was told and the figures
// after the last.
pub fn make(
    form: usize,
    given: Set<'_>,
    start: Figures,
    scratch: &mut Scratch<'_>,
    out: &mut [i32],
) -> (Told, Figures) {
    let mut told = told::begin();
    let mut figures = start;
    for (i, [contours, points]) in given.shapes.as_chunks::<2>().0.iter().enumerate() {
        let set = Set {
            points: room::part(given.points, *points),
            contours: room::part(given.contours, *contours),
            shapes: &[],
        };
        let added = add(walk(form, i), figures, set, scratch, out);
        told = told.with(added);
        figures = added.unwrap_or(figures);
    }
    (told, figures)
}

// The walk of a call: in form 0 always the one that removes collinear points, in 1 never, in 2 in turn from the first call
// on, in 3 from the second on.
fn walk(form: usize, call: usize) -> Walk {
    match form {
        0 => Walk::Simplified,
        1 => Walk::Despiked,
        2 => Walk::from(call % 2),
        _ => Walk::from(1 - call % 2),
    }
}

fn add(
    walk: Walk,
    f: Figures,
    set: Set<'_>,
    scratch: &mut Scratch<'_>,
    out: &mut [i32],
) -> Result<Figures, Refusal> {
    let Set {
        points,
        contours,
        ..
    } = set;
    match walk {
        Walk::Simplified => figures::add_simplified(
            f,
            points,
            contours,
            scratch.next,
            scratch.prev,
            scratch.mark,
            out,
        ),
        Walk::Despiked => figures::add_despiked(
            f,
            points,
            contours,
            scratch.next,
            scratch.prev,
            scratch.mark,
            out,
        ),
    }
}
