// Two's complement of a width.
ghost use Rattle.std.specs.Prelude.{◌≡◌, ◌^◌, ◌<◌, ◌≤◌};
ghost use Rattle.std.specs.Int.Signed.{mag};
ghost use Rattle.bits.specs.Signs.{signed as signed_of};

// How far a number reaches: z, or -1 - z where it is below zero. LLVM does not take four of z.max(!z) in a step.
pub fn reach(z: i64) -> u64
    ensures { result ≡ mag z }
{
    if z < 0 { (-1 - z) as u64 } else { z as u64 }
}

// The signed number that `width` bits are.
pub fn signed(n: u64, width: usize) -> i64
    requires { (0 < width) × (width ≤ 32) × (n < 2 ^ width) }
    ensures { result ≡ signed_of width n }
{
    let half: u64 = 1 << (width - 1);
    if n < half {
        n as i64
    } else {
        n as i64 - (2 * half) as i64
    }
}
