// The text of a job.
ghost use Rattle.std.specs.Prelude.{◌≤◌, length};
ghost use Rattle.report.specs.inside.Lines.{Put};
ghost use Rattle.setfile.specs.inside.Reading.{contained, Readable};
ghost use Rattle.jobtext.specs.Text.{text as text_of};

use crate::NUMBERS;
use crate::inner::lines;
use report::inner::text;
use setfile::inner::head;

// Puts the line of the edition, and a line for each of a file's n contours.
pub fn put(second: bool, bytes: &[u8], n: usize, text: &mut [u8]) -> usize
    requires readable { Readable second bytes.now n }
    requires bytes_in_bounds { length (text_of second (contained bytes.now)) ≤ length text.old }
    ensures { Put 0 (text_of second (contained bytes.now)) text.old result text.new }
{
    let mut points = [0i32; NUMBERS];
    let behind = text::put_line(text, 0, b"edition ", u64::from(head::number(second)));
    lines::put(second, bytes, n, &mut points, text, behind)
}
