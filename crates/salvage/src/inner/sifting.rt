// The pass over a damaged file: each complete contour is kept behind those before it, or noted in the list.
ghost use Rattle.std.specs.Prelude.{◌≡◌, not, [], ◌∷◌, ◌≤◌, length, drop};
ghost use Rattle.replies.specs.Ladder.{first_of};
ghost use Rattle.replies.specs.Refusals.{told};
ghost use Rattle.setfile.specs.inside.Bytes.{all_there};
ghost use Rattle.salvage.specs.Outcome.{saved_as, leaving};
ghost use Rattle.salvage.specs.inside.Sifting.{none_sifted, Ready, Sifts, Roomy, ending};

use crate::answer::Saved;
use replies::Refusal;
use setfile::inner::fields;

// Where the pass has come to: the positions that are read and written, how many contours are dropped, and whether the shape that stands open is kept.
#[derive(Clone, Copy)]
struct Sifted {
    at: usize,
    to: usize,
    dropped: usize,
    keeping: bool,
}

// Whether the contour at `at` is complete.
fn complete(bytes: &[u8], at: usize) -> bool
    requires { at ≤ length bytes.now }
    ensures { result ≡ all_there (drop at bytes.now) }
{
    let rest = bytes.len() - at;
    if rest < 2 {
        return false;
    }
    2 + 8 * fields::held(bytes, at) <= rest
}

// Why a contour is dropped: it is off the grid, or in no shape that is kept.
fn check(on: bool, shape: bool) -> Result<(), Refusal>
    ensures { told result ≡ first_of ((not on, 3) ∷ (not shape, 11) ∷ []) }
{
    if !on {
        return Err(Refusal::OffGrid);
    }
    if !shape {
        return Err(Refusal::NoShape);
    }
    Ok(())
}

// Contour number i, which is complete, is kept or noted.
fn sift(bytes: &[u8], s: Sifted, i: usize, out: &mut [u8], list: &mut [[usize; 2]]) -> Sifted
    requires { Ready bytes.now s out.old list.old }
    ensures { Sifts bytes.now s i out.old list.old
        result out.new list.new }
{
    let at = s.at;
    let n = fields::held(bytes, at);
    let begins = fields::starts(bytes, at);
    let on = fields::all_on(bytes, at + 2, 2 * n);
    let behind = at + (2 + 8 * n);
    if let Err(refusal) = check(on, begins | s.keeping) {
        let k = s.dropped;
        list[k] = [i, refusal.number() as usize];
        return Sifted {
            at: behind,
            to: s.to,
            dropped: k + 1,
            keeping: s.keeping & !begins,
        };
    }
    let to = s.to + (2 + 8 * n);
    rows::inner::copy(&bytes[at..at + 2], out, s.to);
    rows::inner::copy(&bytes[at + 2..behind], out, s.to + 2);
    Sifted {
        at: behind,
        to,
        dropped: s.dropped,
        keeping: true,
    }
}

// Sifts the n promised contours as far as they are complete; the head is not written.
pub fn contours(bytes: &[u8], n: usize, out: &mut [u8], list: &mut [[usize; 2]]) -> Saved
    requires { Roomy bytes.now n out.old list.old }
    ensures { leaving (saved_as result) out.new list.new
        ≡ ending n 0 none_sifted bytes.now out.old list.old }
{
    let mut s = Sifted {
        at: 2,
        to: 2,
        dropped: 0,
        keeping: false,
    };
    for i in 0..n {
        let at = s.at;
        if !complete(bytes, at) {
            return Saved {
                bytes: s.to,
                dropped: s.dropped,
                missing: n - i,
                past: 0,
            };
        }
        s = sift(bytes, s, i, out, list);
    }
    Saved {
        bytes: s.to,
        dropped: s.dropped,
        missing: 0,
        past: bytes.len() - s.at,
    }
}
