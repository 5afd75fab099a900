// What becomes of one contour. No point that is kept is written.
ghost use Rattle.std.specs.Prelude.{◌≡◌};
ghost use Rattle.sets.specs.Fates.{fate};
ghost use Rattle.fates.specs.Fates.{told, later as later_fate};
ghost use Rattle.fates.specs.inside.Telling.{Walkable};

use clean::inner::look;
use ring::Rule;

// The contour is kept. These are numbers and no enum, since they stand in a row of bytes of the C interface.
pub const KEPT: u8 = 0;

// It collapsed.
pub const COLLAPSED: u8 = 1;

// It stands behind a collapsed outline.
pub const BEHIND: u8 = 2;

// A contour that passes its verdict is kept; another is walked, from where the look at it stopped.
pub fn alone(rule: Rule, contour: &[i32], next: &mut [u32], prev: &mut [u32], mark: &mut [u8]) -> u8
    requires { Walkable contour.now next.old prev.old mark.old }
    ensures { result ≡ told (fate rule contour.now) }
{
    let n = contour.len() / 2;
    if n < 3 {
        return COLLAPSED;
    }
    let look = look::look_over(rule, contour, n);
    if look.passes {
        return KEPT;
    }
    let ending = ring::inner::walk(
        rule,
        contour,
        look.standing,
        &mut next[..n],
        &mut prev[..n],
        &mut mark[..n],
    );
    if ending.kept { KEPT } else { COLLAPSED }
}

// A later contour of a shape is not walked behind an outline that collapsed.
pub fn later(
    rule: Rule,
    outline: u8,
    contour: &[i32],
    next: &mut [u32],
    prev: &mut [u32],
    mark: &mut [u8],
) -> u8
    requires { Walkable contour.now next.old prev.old mark.old }
    ensures { result ≡ later_fate rule outline contour.now }
{
    if outline != KEPT {
        return BEHIND;
    }
    alone(rule, contour, next, prev, mark)
}
