// The set file: read into a shape set's rows, written from them, and salvaged where it is damaged.
ghost use Rattle.std.specs.Prelude.{◌≡◌};
ghost use Rattle.setfile.specs.Reading.{leaving, outcome as read_outcome};
ghost use Rattle.setfile.specs.Writing.{leaving as write_leaving, outcome as write_outcome};
ghost use Rattle.setfile.specs.Writing2.{outcome as write_2_outcome};
ghost use Rattle.salvage.specs.Outcome.{leaving as salvage_leaving, outcome as salvage_outcome};

use salvage::Salvaged;
use setfile::{Read, Written};

// Reads a file of either edition into the front of the rows.
pub fn ukm_read_set(
    bytes: &[u8],
    out: &mut [i32],
    records: &mut [[usize; 2]],
    groups: &mut [[usize; 2]],
) -> Read
    ensures { leaving result out.new records.new groups.new
        ≡ read_outcome bytes.now out.old records.old groups.old }
{
    Read::from(setfile::read(bytes, out, records, groups))
}

// Writes a shape set's file of edition 1 into the front of the row of bytes.
pub fn ukm_write_set(
    points: &[i32],
    contours: &[[usize; 2]],
    shapes: &[[usize; 2]],
    bytes: &mut [u8],
) -> Written
    ensures { write_leaving result.reply result.bytes bytes.new
        ≡ write_outcome points.now contours.now shapes.now bytes.old }
{
    Written::from(setfile::write(points, contours, shapes, bytes))
}

// Writes a shape set's file of edition 2 into the front of the row of bytes.
pub fn ukm_write_set_2(
    points: &[i32],
    contours: &[[usize; 2]],
    shapes: &[[usize; 2]],
    bytes: &mut [u8],
) -> Written
    ensures { write_leaving result.reply result.bytes bytes.new
        ≡ write_2_outcome points.now contours.now shapes.now bytes.old }
{
    Written::from(setfile::write_2(points, contours, shapes, bytes))
}

// Writes what is sound of a damaged file into the front of the row of bytes, and lists the contours that were dropped.
pub fn ukm_salvage(bytes: &[u8], out: &mut [u8], dropped: &mut [[usize; 2]]) -> Salvaged
    ensures { salvage_leaving result out.new dropped.new
        ≡ salvage_outcome bytes.now out.old dropped.old }
{
    Salvaged::from(salvage::mend(bytes, out, dropped))
}
