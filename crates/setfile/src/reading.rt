// Reading a file into the rows of a set.
ghost use Rattle.std.specs.Prelude.{◌≡◌};
ghost use Rattle.setfile.specs.Reading.{read_as, leaving, outcome};

use crate::answer::Carried;
use crate::inner::{filling, head, judging};
use replies::Refusal;

// Reads the set that a file of either edition carries to the front of the rows, or refuses it and leaves them.
pub fn read(
    bytes: &[u8],
    out: &mut [i32],
    records: &mut [[usize; 2]],
    groups: &mut [[usize; 2]],
) -> Result<Carried, Refusal>
    ensures { leaving (read_as result) out.new records.new groups.new
        ≡ outcome bytes.now out.old records.old groups.old }
{
    let second = head::is_second(bytes);
    let file = judging::judge(second, bytes)?;
    let room = (file.points <= out.len() / 2)
        & (file.contours <= records.len())
        & (file.shapes <= groups.len());
    if !room {
        return Err(Refusal::Room);
    }
    filling::points(second, bytes, file.contours, out);
    filling::ranges(second, bytes, file.contours, records);
    filling::shapes(second, bytes, file.contours, groups);
    Ok(Carried {
        edition: head::number(second),
        sizes: file,
    })
}
