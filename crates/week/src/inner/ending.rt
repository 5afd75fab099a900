// Where the first of the files in a row ends.
ghost use Rattle.std.specs.Prelude.{◌≡◌, ◌≤◌, length, take, IfSome};
ghost use Rattle.setfile.specs.Reading.{most_bytes};
ghost use Rattle.setfile.specs.inside.Reading.{from_bit, At};
ghost use Rattle.week.specs.Files.{if_any, bits_of_next, bit_behind, own_length as own_length_of};

use crate::MOST_BYTES;
use setfile::inner::{head, headers};

// How many bits the contour at bit `at` has, if it is all there.
fn size_at(second: bool, bytes: &[u8], at: usize) -> Option<usize>
    requires { At second bytes.now at }
    ensures { result ≡ if_any (bits_of_next second (from_bit bytes.now at)) }
{
    let rest = 8 * bytes.len() - at;
    if rest < headers::header_size(second) {
        return None;
    }
    let h = headers::header_at(second, bytes, at);
    let size = headers::size(second, h);
    if rest < size {
        return None;
    }
    Some(size)
}

// The bit behind the n contours that the head promises, if all of them are there.
fn bit_behind(second: bool, bytes: &[u8], n: usize) -> Option<usize>
    requires { At second bytes.now 16 }
    ensures { result ≡ if_any (bit_behind second n 16 (from_bit bytes.now 16)) }
{
    let mut at: usize = 16;
    for _ in 0..n {
        let size = size_at(second, bytes, at)?;
        at += size;
    }
    Some(at)
}

// How many bytes the first file of a row has, if its headers tell.
pub fn own_length(bytes: &[u8]) -> Option<usize>
    ensures value { result ≡ if_any (own_length_of bytes.now) }
    ensures upper_bound { IfSome result (λ k. k ≤ length bytes.now) }
{
    if head::check_either(bytes).is_err() {
        return None;
    }
    let second = head::is_second(bytes);
    let n = head::promised(bytes);
    let behind = bit_behind(second, bytes, n)?;
    Some(behind.div_ceil(8))
}

// The same of a window, which may show one byte more than a file has.
pub fn first_length(window: &[u8]) -> Option<usize>
    ensures value { result ≡ if_any (own_length_of (take most_bytes window.now)) }
    ensures upper_bound { IfSome result (λ k. k ≤ length window.now) }
{
    if window.len() <= MOST_BYTES {
        return own_length(window);
    }
    own_length(&window[..MOST_BYTES])
}
