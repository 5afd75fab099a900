// The fields of a file, each a number in whole bytes, the most significant first.
ghost use Rattle.std.specs.Prelude.{◌≡◌, ◌+◌, ◌*◌, ◌<◌, ◌≤◌, length, drop};
ghost use Rattle.std.specs.List.{fold, list_all};
ghost use Rattle.std.specs.Simd.{first_chunks};
ghost use Rattle.grid.specs.Limits.{narrow, on_grid, all_on_grid};
ghost use Rattle.rows.specs.Rows.{placed};
ghost use Rattle.setfile.specs.inside.Bytes.{pair as pair_of, coordinate, raised, decoded, starts as starts_of, held as held_of};

use grid::NARROW;
use grid::inner::bounds;

// The number in the two bytes from `at` on.
pub fn pair(bytes: &[u8], at: usize) -> u32
    requires { at + 1 < length bytes.now }
    ensures { result ≡ pair_of (drop at bytes.now) }
{
    u32::from(u16::from_be_bytes([bytes[at], bytes[at + 1]]))
}

// Whether the contour at `at` begins a shape.
pub fn starts(bytes: &[u8], at: usize) -> bool
    requires { at + 1 < length bytes.now }
    ensures { result ≡ starts_of (drop at bytes.now) }
{
    32768 <= pair(bytes, at)
}

// How many points the contour at `at` holds.
pub fn held(bytes: &[u8], at: usize) -> usize
    requires { at + 1 < length bytes.now }
    ensures { result ≡ held_of (drop at bytes.now) }
{
    (pair(bytes, at) % 32768) as usize
}

// The k words of four bytes from `at` on: each is a coordinate.
fn words(bytes: &[u8], at: usize, k: usize) -> &[[u8; 4]]
    requires { at + 4 * k ≤ length bytes.now }
    ensures { result.now ≡ first_chunks 4 k (drop at bytes.now) }
{
    bytes[at..at + 4 * k].as_chunks().0
}

// All bits of the words, each read from its last byte on and plus 32. The first byte of a coordinate tells, but for the end
// itself, whether it is on the narrow grid: its first three bits are equal, and then it is below 64 when 32 is added modulo 256.
fn raised_bits(words: &[[u8; 4]]) -> u32
    ensures { result ≡ fold raised 0 words.now }
{
    let mut any = 0;
    for word in words {
        any |= u32::from_le_bytes(*word).wrapping_add(32);
    }
    any
}

// Whether each of these coordinates is on the narrow grid. It reads to the end, since LLVM then takes several in a step.
fn each_on(words: &[[u8; 4]]) -> bool
    ensures { result ≡ list_all (λ w. on_grid narrow (coordinate w)) words.now }
{
    let mut all = true;
    for word in words {
        all &= bounds::on_grid(NARROW, i32::from_be_bytes(*word));
    }
    all
}

// Whether k coordinates, from `at` on, are on the narrow grid. Only where one is at its end or off it are they read again.
pub fn all_on(bytes: &[u8], at: usize, k: usize) -> bool
    requires { at + 4 * k ≤ length bytes.now }
    ensures { result ≡ all_on_grid narrow (decoded k (drop at bytes.now)) }
{
    let words = words(bytes, at, k);
    if raised_bits(words) % 256 < 64 {
        return true;
    }
    each_on(words)
}

// Writes k coordinates, which stand from `at` on, from position `to` on.
pub fn coordinates(bytes: &[u8], at: usize, k: usize, out: &mut [i32], to: usize)
    requires { (at + 4 * k ≤ length bytes.now) × (to + k ≤ length out.old) }
    ensures { out.new
        ≡ placed to (decoded k (drop at bytes.now)) out.old }
{
    let words = words(bytes, at, k);
    for (i, word) in words.iter().enumerate() {
        out[to + i] = i32::from_be_bytes(*word);
    }
}
