// A contour set, given back as a drawing.
ghost use Rattle.std.specs.Prelude.{◌≡◌};
ghost use Rattle.drawing.specs.Exporting.{drawn_as, leaving, outcome};
ghost use Rattle.drawing.specs.inside.Rows.{none_drawn};

use crate::answer::Sizes;
use crate::inner::putting;
use replies::Refusal;

// Writes the commands of a contour set to the front of the rows.
pub fn export(
    points: &[i32],
    ranges: &[[usize; 2]],
    kinds: &mut [u8],
    floats: &mut [f64],
) -> Result<Sizes, Refusal>
    ensures { leaving (drawn_as result) kinds.new floats.new
        ≡ outcome points.now ranges.now kinds.old floats.old }
{
    buffer::inner::refusing::contours(grid::NARROW, points, ranges)?;
    let commands = points.len() / 2 + putting::filled(ranges);
    let room = (commands <= kinds.len()) & (points.len() <= floats.len());
    if !room {
        return Err(Refusal::Room);
    }
    putting::contours(ranges, kinds);
    putting::places(points, floats);
    Ok(Sizes {
        commands,
        floats: points.len(),
    })
}
