// The header of a contour, in either edition: whether it begins a shape, its point count, and in edition 2 the width of its numbers.
ghost use Rattle.std.specs.Prelude.{◌≡◌, ◌+◌, ◌*◌, ◌/◌, ◌≤◌, true, false, length};
ghost use Rattle.steps.specs.Bodies.{body_size};
ghost use Rattle.setfile.specs.Reading.{most_bytes};
ghost use Rattle.setfile.specs.inside.Reading.{from_bit, At, header_size, header_in, size_of};

use crate::inner::fields;

// A contour's header. The numbers of edition 1 are all 32 bits wide.
#[derive(Clone, Copy)]
pub struct Header {
    pub begins: bool,
    pub count: usize,
    pub width: usize,
}

// The header of edition 1 at bit `at`, where a byte begins.
fn of_first(bytes: &[u8], at: usize) -> Header
    requires { (8 * (at / 8) ≡ at) × (at + 16 ≤ 8 * length bytes.now) }
    ensures { result ≡ header_in false (from_bit bytes.now at) }
{
    let pair = fields::pair(bytes, at / 8);
    Header {
        begins: 32768 <= pair,
        count: (pair % 32768) as usize,
        width: 32,
    }
}

// The header of edition 2 at bit `at`.
fn of_second(bytes: &[u8], at: usize) -> Header
    requires { (length bytes.now ≤ most_bytes) × (at + 22 ≤ 8 * length bytes.now) }
    ensures { result ≡ header_in true (from_bit bytes.now at) }
{
    let all = bits::inner::fields::number(bytes, at, 22);
    Header {
        begins: 2_097_152 <= all,
        count: (all / 64 % 32768) as usize,
        width: (all % 64) as usize,
    }
}

// The header at bit `at`.
pub fn header_at(second: bool, bytes: &[u8], at: usize) -> Header
    requires { At second bytes.now at
        × (at + header_size second ≤ 8 * length bytes.now) }
    ensures { result ≡ header_in second (from_bit bytes.now at) }
{
    if second {
        return of_second(bytes, at);
    }
    of_first(bytes, at)
}

// How many bits the header of a contour has.
pub fn header_size(second: bool) -> usize
    ensures { result ≡ header_size second }
{
    if second { 22 } else { 16 }
}

// How many bits a contour of edition 2 has.
pub fn second_size(count: usize, width: usize) -> usize
    requires { (count ≤ 32767) × (width ≤ 63) }
    ensures { result ≡ 22 + body_size count width }
{
    if count == 0 {
        return 22;
    }
    22 + (64 + width * (2 * (count - 1)))
}

// How many bits the contour of a header has.
pub fn size(second: bool, h: Header) -> usize
    requires { (h.count ≤ 32767) × (h.width ≤ 63) }
    ensures { result ≡ size_of second h }
{
    if second {
        return second_size(h.count, h.width);
    }
    16 + 64 * h.count
}
