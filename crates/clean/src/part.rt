// What a cleaning kept, as a part of one of two lent rows.
ghost use Rattle.std.specs.Prelude.{◌≡◌};
ghost use Rattle.rows.specs.Parts.{part};
ghost use Rattle.clean.specs.Part.{kept_part};

// The contour itself if k points are all of it, the k points in front of the output if the contour has more,
// and an empty part of the contour if neither can be.
pub fn kept_part<'a>(contour: &'a [i32], out: &'a [i32], k: usize) -> &'a [i32]
    ensures { part result ≡ kept_part (part contour.entry) (part out.entry) k }
{
    if contour.len() / 2 < k {
        return &contour[..0];
    }
    let want = 2 * k;
    if contour.len() == want {
        return contour;
    }
    if out.len() < want {
        return &contour[..0];
    }
    &out[..want]
}
