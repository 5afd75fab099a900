// Places and commands, read from the rows of kinds and floats, and brought onto the grid.
ghost use Rattle.std.specs.Prelude.{◌≡◌, true, ◌+◌, ◌≤◌, ◌<◌, length, drop};
ghost use Rattle.drawing.specs.Commands.{Item, place_of, item, brought as brought_of};
ghost use Rattle.drawing.specs.inside.Rows.{on as on_grid, point as point_at};

use crate::command::{Command, LINE, MOVE, Place};
use grid::Point;

// The place whose floats stand from `at` on.
pub fn place_from(floats: &[f64], at: usize) -> Place
    requires { at + 1 < length floats.now }
    ensures { result ≡ place_of (drop at floats.now) }
{
    Place {
        x: floats[at],
        y: floats[at + 1],
    }
}

// The command of a kind, whose floats, if it brings any, stand from `at` on.
pub fn read(kind: u8, floats: &[f64], at: usize) -> Command
    requires { (kind ≤ 2) × (at + brought_of kind ≤ length floats.now) }
    ensures { Item.command result ≡ item kind (drop at floats.now) }
{
    if kind == MOVE {
        Command::Move(place_from(floats, at))
    } else if kind == LINE {
        Command::Line(place_from(floats, at))
    } else {
        Command::Close
    }
}

// The grid's point at a place.
pub fn point_of(p: Place) -> Point
    requires { on_grid p ≡ true }
    ensures { result ≡ point_at p }
{
    Point {
        x: millimetres::inner::units(p.x),
        y: millimetres::inner::units(p.y),
    }
}
