// Drawings in millimetres: brought onto the grid as a contour set, and given back from one.
ghost use Rattle.std.specs.Prelude.{◌≡◌, []};
ghost use Rattle.buffer.specs.Answers.{leaving};
ghost use Rattle.drawing.specs.Importing.{outcome as import_outcome};
ghost use Rattle.drawing.specs.Exporting.{leaving as export_leaving, outcome as export_outcome};

use buffer::Packed;
use drawing::Drawn;

// Writes the contours of a drawing, as a contour set, to the front of the rows.
pub fn ukm_import_mm(
    kinds: &[u8],
    floats: &[f64],
    out: &mut [i32],
    records: &mut [[usize; 2]],
) -> Packed
    ensures { leaving result out.new records.new []
        ≡ import_outcome kinds.now floats.now out.old records.old }
{
    Packed::from(drawing::import(kinds, floats, out, records))
}

// Writes the commands of a contour set to the front of the rows.
pub fn ukm_export_mm(
    points: &[i32],
    ranges: &[[usize; 2]],
    kinds: &mut [u8],
    floats: &mut [f64],
) -> Drawn
    ensures { export_leaving result kinds.new floats.new
        ≡ export_outcome points.now ranges.now kinds.old floats.old }
{
    Drawn::from(drawing::export(points, ranges, kinds, floats))
}
