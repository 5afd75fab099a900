// The sum of the areas of a set's contours, and its half.
ghost use Rattle.std.specs.Prelude.{◌≡◌, []};
ghost use Rattle.replies.specs.Ladder.{first_of};
ghost use Rattle.area.specs.Answers.{answered};
ghost use Rattle.buffer.specs.Spans.{spans};
ghost use Rattle.buffer.specs.Sets.{contours};
ghost use Rattle.buffer.specs.Contours.{refusals};
ghost use Rattle.sets.specs.Area.{doubled_by, half_of};

use buffer::inner::parts;
use replies::Refusal;

// The sum of the contours' doubled areas, of a set that no call refuses; refused where one is empty.
pub fn total(points: &[i32], ranges: &[[usize; 2]]) -> Result<i64, Refusal>
    requires { first_of (refusals points.now ranges.now) ≡ 0 }
    ensures { answered result ≡ doubled_by [] (contours points.now (spans ranges.now)) }
{
    let mut sum: i64 = 0;
    for i in 0..ranges.len() {
        let contour = parts::named(points, ranges, i);
        if contour.len() / 2 == 0 {
            return Err(Refusal::Empty);
        }
        sum = sum.wrapping_add(area::inner::doubled_area(contour));
    }
    Ok(sum)
}

// An area that was answered, cut to its half toward zero.
pub fn halved(two: Result<i64, Refusal>) -> Result<i64, Refusal>
    ensures { answered result ≡ half_of (answered two) }
{
    match two {
        Ok(two) => Ok(two / 2),
        Err(refusal) => Err(refusal),
    }
}
