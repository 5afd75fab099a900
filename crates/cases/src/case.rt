// A case of the list: its kind, what stands in front, and the rows that follow.
ghost use Rattle.std.specs.Prelude.{◌≤◌, IfOk, length};

use crate::given::{Rows, Set};
use crate::kind::Kind;
use crate::line::{Damage, Line};
use crate::{entries, line};

// How many numbers can stand in front.
pub const HEAD: usize = 7;

// A case that was read: the point or the numbers in front, with 0 for what its kind does not have; where its records end
// in their row, of each list behind those of the one before; and how many numbers, or else bytes or kinds, and how many
// floats stand in their rows.
#[derive(Clone, Copy)]
pub struct Case {
    pub kind: Kind,
    pub point: [i32; 2],
    pub head: [usize; HEAD],
    pub ranges: usize,
    pub contours: usize,
    pub shapes: usize,
    pub count: usize,
    pub floats: usize,
    ghost in_order: { (ranges ≤ contours) × (contours ≤ shapes) },
    ghost inside: { (shapes ≤ 65600) × (count ≤ 131200) × (floats ≤ 140100) },
}

// How many entries of each kind stand in the rows.
#[derive(Clone, Copy)]
struct Counts {
    count: usize,
    floats: usize,
    ghost inside: { (count ≤ 131200) × (floats ≤ 140100) },
}

// Reads a line, whose first byte names the kind of its case.
pub fn read(bytes: &[u8], rows: &mut Rows) -> Result<Case, Damage> {
    let mut line = line::begin(bytes);
    let kind = read_kind(&mut line)?;
    let point = read_point(&mut line, kind)?;
    let head = read_head(&mut line, kind)?;
    let lists = kind.lists();
    let ranges = read_list(&mut line, lists == 3, &mut rows.records)?;
    let contours = ranges + read_list(&mut line, 0 < lists, &mut rows.records[ranges..])?;
    let shapes = contours + read_list(&mut line, 1 < lists, &mut rows.records[contours..])?;
    let counts = read_rows(&mut line, kind, rows)?;
    line.end()?;
    Ok(Case {
        kind,
        point,
        head,
        ranges,
        contours,
        shapes,
        count: counts.count,
        floats: counts.floats,
    })
}

fn read_kind(line: &mut Line<'_>) -> Result<Kind, Damage> {
    let damage = line.damage();
    let byte = line.next().ok_or(damage)?;
    Kind::try_from(byte).map_err(|_| damage)
}

fn read_point(line: &mut Line<'_>, kind: Kind) -> Result<[i32; 2], Damage> {
    if !kind.has_point() {
        return Ok([0, 0]);
    }
    let x = line.signed_after_space()?;
    let y = line.signed_after_space()?;
    Ok([x, y])
}

fn read_head(line: &mut Line<'_>, kind: Kind) -> Result<[usize; HEAD], Damage> {
    let mut head = [0; HEAD];
    for (number, most) in head.iter_mut().zip(kind.limits()) {
        *number = line.after_space(*most)?;
    }
    Ok(head)
}

// Reads a list of records, if the case has it, and answers how many there are.
fn read_list(line: &mut Line<'_>, has: bool, row: &mut [[usize; 2]]) -> Result<usize, Damage>
    ensures { IfOk result (λ n. n ≤ length row.old) }
{
    if has {
        return entries::read_counted(line, row);
    }
    Ok(0)
}

// Reads the rows: a file, a drawing, or the numbers of points.
fn read_rows(line: &mut Line<'_>, kind: Kind, rows: &mut Rows) -> Result<Counts, Damage> {
    match kind {
        Kind::Read | Kind::Mended => {
            let count = entries::read_every_piece(line, &mut rows.bytes)?;
            Ok(Counts { count, floats: 0 })
        }
        Kind::Coming => {
            let count = entries::read_counted(line, &mut rows.bytes)?;
            let floats = entries::read(line, &mut rows.floats)?;
            Ok(Counts { count, floats })
        }
        _ => {
            let count = entries::read_numbers(line, &mut rows.numbers)?;
            Ok(Counts { count, floats: 0 })
        }
    }
}

impl Case {
    // The first list of records, where there are three.
    pub fn ranges<'a>(&self, rows: &'a Rows) -> &'a [[usize; 2]] {
        &rows.records[..self.ranges]
    }

    // The numbers, and the other two lists.
    pub fn set<'a>(&self, rows: &'a Rows) -> Set<'a> {
        Set {
            points: &rows.numbers[..self.count],
            contours: &rows.records[self.ranges..self.contours],
            shapes: &rows.records[self.contours..self.shapes],
        }
    }

    // The bytes of the file.
    pub fn file<'a>(&self, rows: &'a Rows) -> &'a [u8] {
        &rows.bytes[..self.count]
    }
}
