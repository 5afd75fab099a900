// The answers to a case, by its kind.
use answers::{contours, packing};
use cases::answer::Answer;
use cases::case::Case;
use cases::given::Rows;
use cases::kind::Kind;
use file_answers::{drawings, files};

// The answers to a case, which is in the rows. A drawing is brought in and given back in the same rows.
pub fn of_case(case: Case, rows: &mut Rows) -> Answer {
    match case.kind {
        Kind::Coming => drawings::coming(case, rows),
        Kind::Going => drawings::going(case, rows),
        _ => without_drawings(case, rows),
    }
}

fn without_drawings(case: Case, rows: &Rows) -> Answer {
    let Case { point, head, .. } = case;
    let set = case.set(rows);
    match case.kind {
        Kind::Contour => contours::asked(point, set.points),
        Kind::Located => contours::located(point, set.points),
        Kind::Cleaned => contours::lent(head, set.points),
        Kind::Kept => contours::kept(head, set.points),
        Kind::Set => packing::asked(set),
        Kind::Packed => packing::lent(head, set, case.ranges(rows)),
        Kind::SetAndPoint => cleaning_answers::asked(point, set),
        Kind::SetCleaned => cleaning_answers::lent(head, set),
        Kind::Read => files::read(head, case.file(rows)),
        Kind::Mended => files::mended(head, case.file(rows)),
        Kind::Written2 => files::written(2, head, set),
        Kind::Compared => difference_answers::lent(head, set),
        Kind::History => pool_answers::lent(head, set),
        _ => files::written(1, head, set),
    }
}
