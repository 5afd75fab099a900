// Two contour sets compared.
ghost use Rattle.std.specs.Prelude.{◌≡◌};
ghost use Rattle.difference.specs.Outcome.{leaving, outcome};

use difference::Compared;

// Lists what two sets are to each other, contour by contour, in front of the listing.
pub fn ukm_compare_sets(
    points: &[i32],
    ranges: &[[usize; 2]],
    others: &[i32],
    other_ranges: &[[usize; 2]],
    listing: &mut [[usize; 2]],
) -> Compared
    ensures { leaving result listing.new
        ≡ outcome points.now ranges.now others.now other_ranges.now
        listing.old }
{
    Compared::from(difference::compare(points, ranges, others, other_ranges, listing))
}
