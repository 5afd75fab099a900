// The kinds of drawings in millimetres brought in, and of sets given back as drawings.
use answers::column;
use buffer::Sizes;
use cases::answer::Answer;
use cases::case::Case;
use cases::given::Rows;
use cases::{answer, room};
use drawing::Drawn;
use replies::Refusal;

// A drawing brought into rows of given lengths, and given back into rows just as long as needed.
pub fn coming(case: Case, rows: &mut Rows) -> Answer {
    let (answer, packed) = import(
        answer::begin(),
        room::front(&rows.bytes, case.count),
        room::front(&rows.floats, case.floats),
        room::front_mut(&mut rows.numbers, case.head[0]),
        room::front_mut(&mut rows.records, case.head[1]),
    );
    match packed {
        Ok(sizes) => given_back(answer, sizes, rows),
        Err(_) => answer,
    }
}

fn given_back(imported: Answer, sizes: Sizes, rows: &mut Rows) -> Answer {
    let numbers = sizes.points.saturating_mul(2);
    let commands = sizes.points.saturating_add(sizes.contours);
    let (answer, _) = export(
        imported,
        room::front(&rows.numbers, numbers),
        room::front(&rows.records, sizes.contours),
        room::front_mut(&mut rows.bytes, commands),
        room::front_mut(&mut rows.floats, numbers),
    );
    answer
}

// A set given back into rows of given lengths, and brought in again into rows just as long as needed.
pub fn going(case: Case, rows: &mut Rows) -> Answer {
    let (answer, drawn) = export(
        answer::begin(),
        room::front(&rows.numbers, case.count),
        room::front(&rows.records, case.contours),
        room::front_mut(&mut rows.bytes, case.head[0]),
        room::front_mut(&mut rows.floats, case.head[1]),
    );
    match drawn {
        Ok(sizes) => brought_back(answer, sizes, rows),
        Err(_) => answer,
    }
}

// Each contour with points took one command more than it has points.
fn brought_back(exported: Answer, sizes: drawing::answer::Sizes, rows: &mut Rows) -> Answer {
    let contours = sizes.commands.saturating_sub(sizes.floats / 2);
    let (answer, _) = import(
        exported,
        room::front(&rows.bytes, sizes.commands),
        room::front(&rows.floats, sizes.floats),
        room::front_mut(&mut rows.numbers, sizes.floats),
        room::front_mut(&mut rows.records, contours),
    );
    answer
}

// Brings a drawing into rows that are filled with canaries, and puts behind the answer what is said and the checksums of
// the rows after it.
fn import(
    before: Answer,
    kinds: &[u8],
    floats: &[f64],
    out: &mut [i32],
    records: &mut [[usize; 2]],
) -> (Answer, Result<Sizes, Refusal>) {
    out.fill(-7);
    records.fill([7; 2]);
    let packed = drawing::import(kinds, floats, out, records);
    let answer = column::with_packed(before, packed);
    (answer.sum(out).sum(records), packed)
}

// Gives a set back into rows that are filled with canaries, and puts behind the answer what is said and the checksums of
// the rows after it.
fn export(
    before: Answer,
    points: &[i32],
    contours: &[[usize; 2]],
    kinds: &mut [u8],
    floats: &mut [f64],
) -> (Answer, Result<drawing::answer::Sizes, Refusal>) {
    kinds.fill(7);
    floats.fill(-7.0);
    let drawn = drawing::export(points, contours, kinds, floats);
    let answer = with_drawn(before, Drawn::from(drawn));
    (answer.sum(kinds).sum(floats), drawn)
}

fn with_drawn(answer: Answer, drawn: Drawn) -> Answer {
    answer
        .word(drawn.reply)
        .amount(drawn.commands)
        .amount(drawn.floats)
}
