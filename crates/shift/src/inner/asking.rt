// A point that is asked of a press's contours, read as one shape.
ghost use mathlib.Core.Path.{◌≡◌};
ghost use mathlib.Core.Bool.{true, false};
ghost use Rattle.grid.specs.Limits.{limit};
ghost use Rattle.grid.specs.Points.{on, points as points_of};
ghost use Rattle.path.specs.Locate.{location as location_of};
ghost use Rattle.sifting.specs.inside.Sifting.{InPlace, lying};
ghost use Rattle.shift.specs.inside.Asking.{ruled_by, has_from, shape_from, Askable};

use grid::Point;

// Where the point lies to the contour from point `start` up to point `end`.
fn location(row: &[i32], start: usize, end: usize, p: Point) -> u8
    requires { InPlace row.now start end × (on limit p ≡ true) }
    ensures { result ≡ location_of p (points_of (lying row.now start end)) }
{
    let from = 2 * start;
    let behind = 2 * end;
    path::inner::location(&row[from..behind], p)
}

// Whether a place rules the point out: outside the first contour, or inside a later one.
fn rules_out(later: bool, place: u8) -> bool
    ensures { result ≡ ruled_by later place }
{
    if later {
        place == path::INSIDE
    } else {
        place == path::OUTSIDE
    }
}

// Whether the contours of a press, among the first n records, have the point.
pub fn has(points: &[i32], records: &[[usize; 4]], n: usize, press: usize, p: Point) -> bool
    requires { Askable points.now records.now n p }
    ensures { result ≡ has_from false p (shape_from points.now records.now n press 0) }
{
    let mut met = false;
    for &[start, end, _, own] in &records[..n] {
        if own == press {
            if rules_out(met, location(points, start, end, p)) {
                return false;
            }
            met = true;
        }
    }
    met
}
