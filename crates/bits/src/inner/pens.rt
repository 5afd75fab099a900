// Fields written behind each other: up to 31 bits are kept until four bytes are full.
ghost use Rattle.std.specs.Prelude.{◌≡◌, [], ◌+◌, ◌*◌, ◌^◌, ◌<◌, ◌≤◌, length};
ghost use Rattle.rows.specs.Rows.{placed};
ghost use Rattle.bits.specs.Bits.{field};
ghost use Rattle.bits.specs.inside.Words.{spelled};
ghost use Rattle.bits.specs.inside.Pens.{reached, Ready, Space, Wrote, Lifted};

// How many bytes are written, and the bits that are kept behind them: a number of this width.
#[derive(Clone, Copy)]
pub struct Pen {
    pub at: usize,
    pub kept: u64,
    pub width: usize,
}

// The last four bytes of a number.
pub fn spell(bytes: &mut [u8], at: usize, n: u64)
    requires { at + 4 ≤ length bytes.old }
    ensures { bytes.new ≡ placed at (spelled 4 n) bytes.old }
{
    bytes[at..at + 4].copy_from_slice(&n.to_be_bytes()[4..]);
}

// A number in a field of `width` bits.
pub fn write(bytes: &mut [u8], pen: Pen, width: usize, n: u64) -> Pen
    requires { Ready pen × Space bytes.old pen width × (n < 2 ^ width) }
    ensures { Wrote pen (field width n) bytes.old result bytes.new
        × (result.width < 32) }
{
    let at = pen.at;
    let kept = (pen.kept << width) + n;
    let all = pen.width + width;
    if all < 32 {
        return Pen {
            at,
            kept,
            width: all,
        };
    }
    let rest = all - 32;
    spell(bytes, at, kept >> rest);
    Pen {
        at: at + 4,
        kept: kept % (1 << rest),
        width: rest,
    }
}

// The whole bytes of what is kept.
fn spill(bytes: &mut [u8], pen: Pen) -> Pen
    requires { Ready pen × (reached pen ≤ 8 * length bytes.old) }
    ensures { Wrote pen [] bytes.old result bytes.new
        × (result.width < 8) }
{
    let mut at = pen.at;
    let mut kept = pen.kept;
    let mut width = pen.width;
    while 8 <= width {
        width -= 8;
        bytes[at] = (kept >> width) as u8;
        kept %= 1 << width;
        at += 1;
    }
    Pen { at, kept, width }
}

// What is kept goes to the row, filled with zero bits to whole bytes; answers how many bytes are written.
pub fn lift(bytes: &mut [u8], pen: Pen) -> usize
    requires { Ready pen × (reached pen ≤ 8 * length bytes.old) }
    ensures { Lifted pen bytes.old result bytes.new }
{
    let fill = (8 - pen.width % 8) % 8;
    let full = write(bytes, pen, fill, 0);
    let done = spill(bytes, full);
    done.at
}
