// The writing of whole rows.
ghost use Rattle.std.specs.Prelude.{◌≡◌, ◌+◌, ◌≤◌, length};
ghost use Rattle.rows.specs.Rows.{placed};

// Writes the elements of a row into another, from position `at` on.
pub fn copy<T: Copy>(from: &[T], out: &mut [T], at: usize)
    requires { at + length from.now ≤ length out.old }
    ensures { out.new ≡ placed at from.now out.old }
{
    for i in 0..from.len() {
        out[at + i] = from[i];
    }
}
