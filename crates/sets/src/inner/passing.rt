// Whether every contour of a set passes the verdict that goes with a rule.
ghost use Rattle.std.specs.Prelude.{◌≡◌, ◌<◌, [], length, slice_index_or};
ghost use Rattle.grid.specs.Points.{points as points_of};
ghost use Rattle.replies.specs.Ladder.{first_of};
ghost use Rattle.replies.specs.Verdicts.{answered};
ghost use Rattle.buffer.specs.Spans.{span, spans};
ghost use Rattle.buffer.specs.Sets.{contour, contours};
ghost use Rattle.buffer.specs.Contours.{refusals};
ghost use Rattle.clean.specs.Verdicts.{passes as passes_by};
ghost use Rattle.sets.specs.Verdicts.{all_pass as all_pass_by, verdict_by};

use buffer::inner::parts;
use replies::Refusal;
use ring::Rule;

// Whether contour number k passes, of a set that no call refuses.
fn named_passes(rule: Rule, points: &[i32], ranges: &[[usize; 2]], k: usize) -> bool
    requires { (first_of (refusals points.now ranges.now) ≡ 0) × (k < length ranges.now) }
    ensures { result ≡ passes_by rule (points_of (contour points.now (span (slice_index_or ranges.now k [])))) }
{
    clean::inner::verdicts::passes(rule, parts::named(points, ranges, k))
}

// Whether every contour passes, of a set that no call refuses.
pub fn all_pass(rule: Rule, points: &[i32], ranges: &[[usize; 2]]) -> bool
    requires { first_of (refusals points.now ranges.now) ≡ 0 }
    ensures { result ≡ all_pass_by rule (contours points.now (spans ranges.now)) }
{
    (0..ranges.len()).all(|i| named_passes(rule, points, ranges, i))
}

// The answer of a contour set.
pub fn verdict(rule: Rule, points: &[i32], ranges: &[[usize; 2]]) -> Result<bool, Refusal>
    ensures { answered result ≡ verdict_by rule (refusals points.now ranges.now)
        (contours points.now (spans ranges.now)) }
{
    buffer::contours::check(points, ranges)?;
    Ok(all_pass(rule, points, ranges))
}
