// A broad pen: up to 64 bits are kept at the front of a word, until eight bytes are full.
ghost use Rattle.std.specs.Prelude.{◌≡◌, [], ◌*◌, ◌^◌, ◌<◌, ◌≤◌, length};
ghost use Rattle.bits.specs.Bits.{field};
ghost use Rattle.bits.specs.inside.Pens.{reached, Ready, Wrote, narrowed, Fronted, Breadth};

use crate::inner::pens;
use crate::inner::pens::Pen;

// How many bytes are written, and the bits that are kept behind them: the first so many of a word, and zeros.
#[derive(Clone, Copy)]
pub struct Broad {
    pub at: usize,
    pub kept: u64,
    pub width: usize,
}

// The same pen, broad.
pub fn broaden(pen: Pen) -> Broad
    requires { Ready pen }
    ensures { Fronted result × (narrowed result ≡ pen) }
{
    Broad {
        at: pen.at,
        kept: (pen.kept << (32 - pen.width)) << 32,
        width: pen.width,
    }
}

// A number in a field of `width` bits.
pub fn sweep(bytes: &mut [u8], broad: Broad, width: usize, n: u64) -> Broad
    requires { Fronted broad × Breadth bytes.old broad width × (n < 2 ^ width) }
    ensures { Wrote (narrowed broad) (field width n) bytes.old (narrowed result) bytes.new
        × Fronted result }
{
    let at = broad.at;
    let all = broad.width + width;
    if all <= 64 {
        return Broad {
            at,
            kept: broad.kept + (n << (64 - all)),
            width: all,
        };
    }
    let rest = all - 64;
    let full = broad.kept + (n >> rest);
    bytes[at..at + 8].copy_from_slice(&full.to_be_bytes());
    Broad {
        at: at + 8,
        kept: n << (64 - rest),
        width: rest,
    }
}

// The same pen with fewer than 32 bits kept.
pub fn narrow(bytes: &mut [u8], broad: Broad) -> Pen
    requires { Fronted broad × (reached (narrowed broad) ≤ 8 * length bytes.old) }
    ensures { Wrote (narrowed broad) [] bytes.old result bytes.new
        × (result.width < 32) }
{
    let mut at = broad.at;
    let mut kept = broad.kept;
    let mut width = broad.width;
    while 32 <= width {
        pens::spell(bytes, at, kept >> 32);
        kept <<= 32;
        at += 4;
        width -= 32;
    }
    Pen {
        at,
        kept: (kept >> 32) >> (32 - width),
        width,
    }
}
