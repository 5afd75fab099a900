// Floats that are on the grid, as units of it.
ghost use Rattle.std.specs.Prelude.{◌≡◌, true};
ghost use Rattle.millimetres.specs.Scale.{on_grid, size, units as units_of};
ghost use Rattle.millimetres.specs.inside.Small.{Small};

// The whole number nearest to 1,024 times a, halves up: 2,048 times a, cut to a whole number, has all that it takes.
fn steps(a: f64) -> u64
    requires { Small a }
    ensures { result ≡ size a }
{
    (std::num::truncating_f64_to_u64(a * 2048.0) + 1) / 2
}

// What a coordinate is in units: the whole number nearest to 1,024 times v, halves away from zero.
pub fn units(v: f64) -> i32
    requires { on_grid v ≡ true }
    ensures { result ≡ units_of v }
{
    if v < 0.0 {
        -(steps(-v) as i32)
    } else {
        steps(v) as i32
    }
}
