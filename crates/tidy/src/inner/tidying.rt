// A file, read, cleaned and written.
ghost use Rattle.std.specs.Prelude.{◌≡◌, ◌≤◌, length};
ghost use Rattle.buffer.specs.Spans.{spans};
ghost use Rattle.buffer.specs.Sets.{joined, shapes as shapes_of};
ghost use Rattle.sets.specs.Fates.{shapes_fate};
ghost use Rattle.fates.specs.Fates.{fates as fates_of};
ghost use Rattle.report.specs.inside.Lines.{Put};
ghost use Rattle.setfile.specs.Writing as W;
ghost use Rattle.jobpack.specs.Packing.{leaving, outcome};
ghost use Rattle.tidy.specs.Words.{lines as lines_of, refusal, file, set_tidied, tidying};
ghost use Rattle.tidy.specs.inside.Sets.{Tidiable};

use crate::inner::lines;
use crate::{CONTOURS, NUMBERS, POINTS};
use fates::inner::shapes as telling;
use jobpack::Lengths;
use jobpack::inner::writing;
use replies::Refusal;
use ring::Rule;
use sets::inner::shapes as cleaning;

// Writes the file of the cleaned shapes of a set.
fn write(
    rule: Rule,
    second: bool,
    points: &[i32],
    contours: &[[usize; 2]],
    shapes: &[[usize; 2]],
    out: &mut [u8],
) -> Result<usize, Refusal>
    requires tidiable { Tidiable points.now contours.now shapes.now }
    requires in_bounds { 65536 ≤ length out.old }
    ensures { W.leaving (W.written_as result).reply (W.written_as result).bytes out.new
        ≡ W.written
        (refusal second (shapes_fate rule (shapes_of points.now (spans contours.now) (spans shapes.now))).shapes)
        (file second (shapes_fate rule (shapes_of points.now (spans contours.now) (spans shapes.now))).shapes)
        out.old }
{
    let mut next = [0u32; POINTS];
    let mut prev = [0u32; POINTS];
    let mut mark = [0u8; POINTS];
    let mut kept = [0i32; NUMBERS];
    let mut ranges = [[0usize; 2]; CONTOURS];
    let mut groups = [[0usize; 2]; CONTOURS];
    let total = cleaning::sweep_shapes(
        rule,
        points,
        contours,
        shapes,
        &mut next,
        &mut prev,
        &mut mark,
        &mut kept,
        &mut ranges,
        &mut groups,
    );
    let progress = total.progress;
    let n = 2 * progress.points;
    let k = progress.contours;
    let m = total.shapes;
    writing::written(second, &kept[..n], &ranges[..k], &groups[..m], out)
}

// Puts a line for each contour that goes where the shapes of a set are cleaned.
fn tell(
    rule: Rule,
    points: &[i32],
    contours: &[[usize; 2]],
    shapes: &[[usize; 2]],
    text: &mut [u8],
) -> usize
    requires { Tidiable points.now contours.now shapes.now × (343980 ≤ length text.old) }
    ensures { Put 0
        (lines_of 1
        (fates_of rule (shapes_of points.now (spans contours.now) (spans shapes.now)))
        (joined (shapes_of points.now (spans contours.now) (spans shapes.now))))
        text.old result text.new }
{
    let mut next = [0u32; POINTS];
    let mut prev = [0u32; POINTS];
    let mut mark = [0u8; POINTS];
    let mut fates = [0u8; CONTOURS];
    let k = contours.len();
    telling::sweep(
        rule,
        points,
        contours,
        shapes,
        &mut next,
        &mut prev,
        &mut mark,
        &mut fates[..k],
    );
    lines::put(points, contours, &fates[..k], text)
}

// The cleaned file of a set and what went, or why there is no file.
fn tidy_set(
    rule: Rule,
    second: bool,
    points: &[i32],
    contours: &[[usize; 2]],
    shapes: &[[usize; 2]],
    out: &mut [u8],
    text: &mut [u8],
) -> Lengths
    requires tidiable { Tidiable points.now contours.now shapes.now }
    requires in_bounds { (65536 ≤ length out.old) × (343980 ≤ length text.old) }
    ensures { leaving result out.new text.new
        ≡ outcome
        (set_tidied rule second (shapes_of points.now (spans contours.now) (spans shapes.now)))
        out.old text.old }
{
    match write(rule, second, points, contours, shapes, out) {
        Ok(bytes) => Lengths {
            bytes,
            words: tell(rule, points, contours, shapes, text),
        },
        Err(refusal) => writing::refused(refusal, out, text),
    }
}

// Puts the file of a file's cleaned shapes in front of one row, and what went in front of the other, or why there is no file.
pub fn tidy(rule: Rule, bytes: &[u8], out: &mut [u8], text: &mut [u8]) -> Lengths
    requires { (65536 ≤ length out.old) × (343980 ≤ length text.old) }
    ensures { leaving result out.new text.new
        ≡ tidying rule bytes.now out.old text.old }
{
    let mut points = [0i32; NUMBERS];
    let mut ranges = [[0usize; 2]; CONTOURS];
    let mut shapes = [[0usize; 2]; CONTOURS];
    let read = match setfile::read(bytes, &mut points, &mut ranges, &mut shapes) {
        Ok(carried) => carried,
        Err(refusal) => return writing::refused(refusal, out, text),
    };
    let second = read.edition == 2;
    let n = 2 * read.sizes.points;
    let k = read.sizes.contours;
    let m = read.sizes.shapes;
    tidy_set(
        rule,
        second,
        &points[..n],
        &ranges[..k],
        &shapes[..m],
        out,
        text,
    )
}
