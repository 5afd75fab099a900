// The smallest width.
ghost use Rattle.std.specs.Prelude.{◌≡◌, ◌^◌, ◌<◌};
ghost use Rattle.bits.specs.Widths.{width_for};

// The smallest width for every number that reaches no farther.
pub fn width_for(far: u64) -> usize
    requires { far < 2 ^ 31 }
    ensures { result ≡ width_for far }
{
    (65 - far.leading_zeros()) as usize
}
