// The number in the bits of a field: whole bytes are gathered, and shifted twice.
ghost use Rattle.std.specs.Prelude.{◌≡◌, ◌+◌, ◌*◌, ◌^◌, ◌<◌, ◌≤◌, length, drop, get_or, take};
ghost use Rattle.bits.specs.Bits.{value, bits};
ghost use Rattle.bits.specs.inside.Words.{word as word_of, Within, Ahead};

// The number in the eight bytes from `at` on. LLVM makes one load of it.
fn eight(bytes: &[u8], at: usize) -> u64
    requires { at + 8 ≤ length bytes.now }
    ensures { result ≡ word_of 8 (drop at bytes.now) }
{
    u64::from_be_bytes(*bytes[at..at + 8].first_chunk().unwrap())
}

// The number in the `width` bits from bit `at` on, of a row of eight bytes or more: near its end it is cut out of the last eight.
pub fn long_number(bytes: &[u8], at: usize, width: usize) -> u64
    requires { Within bytes.now at width × (8 ≤ length bytes.now) }
    ensures { result ≡ value (take width (drop at (bits bytes.now))) }
{
    let from = (at / 8).min(bytes.len() - 8);
    (eight(bytes, from) << (at - 8 * from)) >> (64 - width)
}

// A word that begins with the `width` bits from bit `at` on, of which and of those before it there are 64: cut out of the eight
// bytes that end with it, so that none behind it is read.
pub fn ahead(bytes: &[u8], at: usize, width: usize) -> u64
    requires { Within bytes.now at width × (64 ≤ at + width) × (at < 2 ^ 63) }
    ensures { Ahead bytes.now at width result }
{
    let end = at + width - 1;
    eight(bytes, end / 8 - 7) << (end % 8 + (57 - width))
}

// Byte i of a row, 0 where it has none.
fn or_none(bytes: &[u8], i: usize) -> u8
    ensures { result ≡ get_or bytes.now i 0 }
{
    bytes.get(i).copied().unwrap_or(0)
}

// The number in the `width` bits from bit `at` on.
pub fn number(bytes: &[u8], at: usize, width: usize) -> u64
    requires { Within bytes.now at width }
    ensures { result ≡ value (take width (drop at (bits bytes.now))) }
{
    if bytes.len() < 8 {
        let filled = [
            or_none(bytes, 0),
            or_none(bytes, 1),
            or_none(bytes, 2),
            or_none(bytes, 3),
            or_none(bytes, 4),
            or_none(bytes, 5),
            or_none(bytes, 6),
            or_none(bytes, 7),
        ];
        return long_number(&filled, at, width);
    }
    long_number(bytes, at, width)
}
