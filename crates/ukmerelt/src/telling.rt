// What becomes of each contour of a set whose shapes are cleaned.
ghost use Rattle.std.specs.Prelude.{◌≡◌};
ghost use Rattle.ring.specs.declared.Rule as R;
ghost use Rattle.fates.specs.Outcome.{lent, leaving, fates_outcome};

use buffer::Counted;

// The fates of the contours where their shapes lose their collinear points.
pub fn ukm_simplified_fates(
    points: &[i32],
    contours: &[[usize; 2]],
    shapes: &[[usize; 2]],
    next: &mut [u32],
    prev: &mut [u32],
    mark: &mut [u8],
    told: &mut [u8],
) -> Counted
    ensures { leaving result (lent next.new prev.new mark.new told.new)
        ≡ fates_outcome R.Rule.Collinear points.now contours.now shapes.now
        (lent next.old prev.old mark.old told.old) }
{
    Counted::from(fates::simplified(points, contours, shapes, next, prev, mark, told))
}

// The fates of the contours where their shapes lose their spikes.
pub fn ukm_despiked_fates(
    points: &[i32],
    contours: &[[usize; 2]],
    shapes: &[[usize; 2]],
    next: &mut [u32],
    prev: &mut [u32],
    mark: &mut [u8],
    told: &mut [u8],
) -> Counted
    ensures { leaving result (lent next.new prev.new mark.new told.new)
        ≡ fates_outcome R.Rule.Spike points.now contours.now shapes.now
        (lent next.old prev.old mark.old told.old) }
{
    Counted::from(fates::despiked(points, contours, shapes, next, prev, mark, told))
}
