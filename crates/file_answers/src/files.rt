// The kinds of files read, mended, and written in either edition.
use answers::lent::Output;
use cases::answer::Answer;
use cases::case::HEAD;
use cases::given::Set;
use cases::room::{LONG, LONG_NUMBERS, READ};
use cases::{answer, checksum, room};
use replies::Refusal;
use salvage::Salvaged;
use setfile::answer::Carried;
use setfile::{Read, Written};

// The listing of a file: how long it is, and the checksum of its text.
#[derive(Clone, Copy)]
struct Listed {
    length: usize,
    sum: u32,
}

// A file read into rows of given lengths, full of canaries.
pub fn read(head: [usize; HEAD], file: &[u8]) -> Answer {
    let mut out = [-7i32; LONG_NUMBERS];
    let mut records = [[7usize; 2]; READ];
    let mut groups = [[7usize; 2]; READ];
    let output = Output {
        out: room::front_mut(&mut out, head[0]),
        records: room::front_mut(&mut records, head[1]),
        groups: room::front_mut(&mut groups, head[2]),
    };
    after_reading(file, output)
}

// What is read, the checksums of the rows, the file's listing, and how what was read is written.
fn after_reading(file: &[u8], output: Output<'_>) -> Answer {
    let Output {
        out,
        records,
        groups,
    } = output;
    let read = setfile::read(file, out, records, groups);
    let listed = listing_of(file);
    let answer = fields_of(Read::from(read))
        .sum(out)
        .sum(records)
        .sum(groups)
        .amount(listed.length)
        .joined(listed.sum as usize);
    match read {
        Ok(carried) => with_read(answer, file.len(), carried, out, records, groups),
        Err(_) => answer,
    }
}

fn fields_of(read: Read) -> Answer {
    answer::begin()
        .word(read.reply)
        .word(read.edition)
        .amount(read.points)
        .amount(read.contours)
        .amount(read.shapes)
}

// Lists a file, and adds the text up.
fn listing_of(file: &[u8]) -> Listed {
    let mut listing = [0u8; report::TEXT];
    let length = report::inner::listing::list(file, &mut listing);
    Listed {
        length,
        sum: checksum::of(&listing[..length]),
    }
}

// With the set in front of the rows, written into a row of so many bytes, in the edition of which it was read.
fn with_read(
    answer: Answer,
    length: usize,
    carried: Carried,
    out: &[i32],
    records: &[[usize; 2]],
    groups: &[[usize; 2]],
) -> Answer {
    let sizes = carried.sizes;
    let set = Set {
        points: room::front(out, sizes.points.saturating_mul(2)),
        contours: room::front(records, sizes.contours),
        shapes: room::front(groups, sizes.shapes),
    };
    with_written(answer, carried.edition, length, set)
}

// A set written as a file of an edition into a row of a given length, full of canaries.
pub fn written(edition: u32, head: [usize; HEAD], set: Set<'_>) -> Answer {
    with_written(answer::begin(), edition, head[0], set)
}

fn with_written(before: Answer, edition: u32, length: usize, set: Set<'_>) -> Answer {
    let mut row = [7u8; LONG];
    let row = room::front_mut(&mut row, length);
    let written = Written::from(in_edition(edition, set, row));
    before.word(written.reply).amount(written.bytes).sum(row)
}

fn in_edition(edition: u32, set: Set<'_>, row: &mut [u8]) -> Result<usize, Refusal> {
    match edition {
        2 => setfile::write_2(set.points, set.contours, set.shapes, row),
        _ => setfile::write(set.points, set.contours, set.shapes, row),
    }
}

// A file mended into rows of given lengths, full of canaries.
pub fn mended(head: [usize; HEAD], file: &[u8]) -> Answer {
    let mut out = [7u8; LONG];
    let mut list = [[7usize; 2]; READ];
    let out = room::front_mut(&mut out, head[0]);
    let list = room::front_mut(&mut list, head[1]);
    let salvaged = salvage::mend(file, out, list);
    of_salvaged(Salvaged::from(salvaged)).sum(out).sum(list)
}

fn of_salvaged(salvaged: Salvaged) -> Answer {
    answer::begin()
        .word(salvaged.reply)
        .amount(salvaged.bytes)
        .amount(salvaged.dropped)
        .amount(salvaged.missing)
        .amount(salvaged.past)
}
