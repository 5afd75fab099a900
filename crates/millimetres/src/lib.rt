// Millimetres as floats, and the units of the grid, 1,024 to the millimetre: each from the other.
#![tactic(auto)]

pub mod inner;

ghost use Rattle.std.specs.Prelude.{◌≡◌};
ghost use Rattle.millimetres.specs.Scale.{finite as is_finite, on_grid, millimetres};

// Half a unit past the last coordinate of a drawing.
const EDGE: f64 = 524288.00048828125;

// Whether v is neither a NaN nor an infinity.
pub fn finite(v: f64) -> bool
    ensures { result ≡ is_finite v }
{
    v.is_finite()
}

// Whether v is a coordinate of a drawing: rounded to units it is on the grid.
pub fn on_grid(v: f64) -> bool
    ensures { result ≡ on_grid v }
{
    -EDGE < v && v < EDGE
}

// x units in millimetres, exactly.
pub fn exact(x: i32) -> f64
    ensures { result ≡ millimetres x }
{
    f64::from(x) / 1024.0
}
