// How long ranges are, and how long a file of edition 2 is.
ghost use Rattle.std.specs.Prelude.{◌≡◌, ◌+◌, ◌/◌, ◌≤◌, length};
ghost use Rattle.buffer.specs.Spans.{span, spans, size};
ghost use Rattle.setfile.specs.Writing.{most_contours, some_over, some_empty};
ghost use Rattle.setfile.specs.inside.Writing.{Named, Widths, all_size};

use crate::inner::headers;

// How long a range is: nothing where it runs backward.
fn size(range: &[usize; 2]) -> usize
    ensures { result ≡ size (span range.now) }
{
    range[1].saturating_sub(range[0])
}

// Whether one of the ranges is longer than n.
pub fn some_over(ranges: &[[usize; 2]], n: usize) -> bool
    ensures { result ≡ some_over n (spans ranges.now) }
{
    ranges.iter().any(|r| n < size(r))
}

// Whether one of the ranges is empty.
pub fn some_empty(ranges: &[[usize; 2]]) -> bool
    ensures { result ≡ some_empty (spans ranges.now) }
{
    ranges.iter().any(|r| size(r) == 0)
}

// How many bytes the file of a set has; the width of each contour is kept.
pub fn file_length(points: &[i32], contours: &[[usize; 2]], widths: &mut [u8]) -> usize
    requires { Named points.now contours.now (length contours.now)
        × (length contours.now ≤ most_contours)
        × (length contours.now ≤ length widths.old) }
    ensures { (result ≡ (16 + all_size points.now contours.now + 7) / 8)
        × Widths points.now contours.now (length contours.now)
        widths.new }
{
    let mut bits: usize = 16;
    for k in 0..contours.len() {
        let contour = buffer::inner::parts::named(points, contours, k);
        let width = steps::inner::writing::width(contour);
        widths[k] = width as u8;
        bits += headers::second_size(contour.len() / 2, width);
    }
    bits.div_ceil(8)
}
