// Places and commands.
ghost use Rattle.std.specs.Prelude.{◌≡◌};
ghost use Rattle.drawing.specs.Commands.{brought as brought_of};
ghost use Rattle.drawing.specs.Exporting.{place as place_at};

use grid::Point;

// The kinds of commands, numbers since they stand in a row of bytes that C lends.
pub const MOVE: u8 = 0;

pub const LINE: u8 = 1;

pub const CLOSE: u8 = 2;

// A place, in millimetres.
#[derive(Clone, Copy)]
pub struct Place {
    pub x: f64,
    pub y: f64,
}

#[derive(Clone, Copy)]
pub enum Command {
    Move(Place),
    Line(Place),
    Close,
}

// How many floats a command of a kind brings.
pub fn brought(kind: u8) -> usize
    ensures { result ≡ brought_of kind }
{
    if kind < CLOSE { 2 } else { 0 }
}

// The place of a point.
pub fn place_of(p: Point) -> Place
    ensures { result ≡ place_at p }
{
    Place {
        x: millimetres::exact(p.x),
        y: millimetres::exact(p.y),
    }
}
