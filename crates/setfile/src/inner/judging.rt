// The whole of a file is judged before the first write.
ghost use Rattle.std.specs.Prelude.{◌≡◌, ◌+◌, ◌*◌, ◌≤◌, true, false, not, [], ◌∷◌, length, ◌==◌};
ghost use Rattle.replies.specs.Ladder.{first_of};
ghost use Rattle.replies.specs.Refusals.{told};
ghost use Rattle.bits.specs.Widths.{width_of};
ghost use Rattle.steps.specs.Bodies.{steps_in};
ghost use Rattle.steps.specs.inside.Asked.{Stands};
ghost use Rattle.setfile.specs.Editions.{layout, is_second};
ghost use Rattle.setfile.specs.Layouts.{end_damage, contours_in};
ghost use Rattle.setfile.specs.Reading.{most_bytes};
ghost use Rattle.setfile.specs.inside.Reading.{from_bit, At, header_in, Whole, none_met, met_more, Within, judged_as, summed, Judgement};

use crate::inner::headers::Header;
use crate::inner::{contours as points_of, head, headers};
use buffer::Sizes;
use replies::Refusal;

// What is met so far: the bit behind it, its counts of points and shapes, and whether all is on the grid.
#[derive(Clone, Copy)]
struct Met {
    at: usize,
    points: usize,
    shapes: usize,
    on: bool,
}

// 15 where the width that is written of n points, which stand from bit `at` on, is not the smallest.
fn width_fault(bytes: &[u8], at: usize, width: usize, n: usize) -> Result<(), Refusal>
    requires { Stands bytes.now at width n × (width ≤ 63) }
    ensures { told result ≡ first_of
        ((not (width == width_of (steps_in n width (from_bit bytes.now at))), 15) ∷ []) }
{
    if steps::inner::reading::smallest(bytes, at, width, n) {
        return Ok(());
    }
    Err(Refusal::Width)
}

// What is wrong with the contour at bit `at`, behind so many points.
fn contour_fault(
    second: bool,
    bytes: &[u8],
    at: usize,
    first: bool,
    points: usize,
) -> Result<(), Refusal>
    requires { At second bytes.now at × (points ≤ at) }
    ensures { told result ≡ (layout second).wrong first points (from_bit bytes.now at) }
{
    let rest = 8 * bytes.len() - at;
    if rest < headers::header_size(second) {
        return Err(Refusal::Length);
    }
    let h = headers::header_at(second, bytes, at);
    if first & !h.begins {
        return Err(Refusal::NoShape);
    }
    if second & (65536 < points + h.count) {
        return Err(Refusal::TooMany);
    }
    if rest < headers::size(second, h) {
        return Err(Refusal::Length);
    }
    if second {
        return width_fault(bytes, at + 22, h.width, h.count);
    }
    Ok(())
}

// One contour more is met.
fn met_more(second: bool, bytes: &[u8], m: Met) -> Met
    requires { Within second bytes.now m × Whole second bytes.now m.at }
    ensures { result ≡ met_more second (from_bit bytes.now m.at) m }
{
    let at = m.at;
    let h = headers::header_at(second, bytes, at);
    let on = points_of::on_grid(second, bytes, at, h);
    Met {
        at: at + headers::size(second, h),
        points: m.points + h.count,
        shapes: m.shapes + usize::from(h.begins),
        on: m.on & on,
    }
}

// What is wrong with the bits behind the last contour: 10 a whole byte, 16 a fill bit that is set.
fn end_fault(bytes: &[u8], at: usize) -> Result<(), Refusal>
    requires { (length bytes.now ≤ most_bytes) × (at ≤ 8 * length bytes.now) }
    ensures { told result ≡ end_damage (from_bit bytes.now at) }
{
    let rest = 8 * bytes.len() - at;
    if 8 <= rest {
        return Err(Refusal::Length);
    }
    if rest == 0 {
        return Ok(());
    }
    if bits::inner::fields::number(bytes, at, rest) != 0 {
        return Err(Refusal::Fill);
    }
    Ok(())
}

// All n contours are met: what is wrong behind them, and then 3.
fn finished(second: bool, bytes: &[u8], m: Met, n: usize) -> Result<Sizes, Refusal>
    requires { Within second bytes.now m }
    ensures { judged_as result ≡ summed second m n (contours_in (layout second) 0 false m.points (from_bit bytes.now m.at)) }
{
    end_fault(bytes, m.at)?;
    if !m.on {
        return Err(Refusal::OffGrid);
    }
    Ok(Sizes {
        points: m.points,
        contours: n,
        shapes: m.shapes,
    })
}

// The n contours behind the head, and nothing behind them.
fn contours(second: bool, bytes: &[u8], n: usize) -> Result<Sizes, Refusal>
    requires { At second bytes.now 16 }
    ensures { judged_as result ≡ summed second none_met 0 (contours_in (layout second) n true 0 (from_bit bytes.now 16)) }
{
    let mut m = Met {
        at: 16,
        points: 0,
        shapes: 0,
        on: true,
    };
    for i in 0..n {
        contour_fault(second, bytes, m.at, i == 0, m.points)?;
        m = met_more(second, bytes, m);
    }
    finished(second, bytes, m, n)
}

// A file's first refusal, or its counts.
pub fn judge(second: bool, bytes: &[u8]) -> Result<Sizes, Refusal>
    requires { second ≡ is_second bytes.now }
    ensures { Judgement second bytes.now (judged_as result) }
{
    head::check_either(bytes)?;
    let n = head::promised(bytes);
    contours(second, bytes, n)
}
