// What becomes of the contours of shapes, one after the other.
ghost use Rattle.std.specs.Prelude.{◌≡◌};
ghost use Rattle.ring.specs.Walk.{occurrences};
ghost use Rattle.buffer.specs.Spans.{spans};
ghost use Rattle.buffer.specs.Sets.{shapes as shapes_of};
ghost use Rattle.sets.specs.inside.Shape.{Zeroed};
ghost use Rattle.fates.specs.Fates.{kept as kept_fate, fates as fates_of};
ghost use Rattle.fates.specs.inside.Telling.{Each};

use crate::inner::{contour, shape};
use ring::Rule;

// How many are kept.
fn kept(fates: &[u8]) -> usize
    ensures { result ≡ occurrences kept_fate fates.now }
{
    fates.iter().filter(|fate| **fate == contour::KEPT).count()
}

// Shape after shape: the entries of each begin where those before it end.
fn each(
    rule: Rule,
    points: &[i32],
    contours: &[[usize; 2]],
    shapes: &[[usize; 2]],
    next: &mut [u32],
    prev: &mut [u32],
    mark: &mut [u8],
    fates: &mut [u8],
)
    requires { Each points.now contours.now shapes.now next.old prev.old mark.old fates.old }
    ensures { fates.new
        ≡ fates_of rule
        (shapes_of points.now (spans contours.now) (spans shapes.now)) }
{
    for &[from, to] in shapes {
        let own = &contours[from..to];
        shape::shape(rule, points, own, next, prev, mark, &mut fates[from..to]);
    }
}

// All of them, with the scratch zeroed after them; answers how many are kept.
pub fn sweep(
    rule: Rule,
    points: &[i32],
    contours: &[[usize; 2]],
    shapes: &[[usize; 2]],
    next: &mut [u32],
    prev: &mut [u32],
    mark: &mut [u8],
    fates: &mut [u8],
) -> usize
    requires { Each points.now contours.now shapes.now next.old prev.old mark.old fates.old }
    ensures value { result ≡ occurrences kept_fate (fates_of rule
        (shapes_of points.now (spans contours.now) (spans shapes.now))) }
    ensures fates_after { fates.new
        ≡ fates_of rule
        (shapes_of points.now (spans contours.now) (spans shapes.now)) }
    ensures zeroed { Zeroed next.old prev.old mark.old
        next.new prev.new mark.new }
{
    each(rule, points, contours, shapes, next, prev, mark, fates);
    sets::inner::shapes::zero_scratch(next, prev, mark);
    kept(fates)
}
