// A step, read off the numbers from a place on.
ghost use mathlib.Core.Path.{◌≡◌};
ghost use mathlib.Core.Bool.{true};
ghost use Prim.Native.Nat.{◌<◌};
ghost use lib.Dec.{leb};
ghost use lib.IntN.{pos};
ghost use lib.ListN.{length};
ghost use Rattle.shift.specs.Steps.{pressed, second as second_of};
ghost use Rattle.shift.specs.inside.Heads.{Bits, head as head_of, head_if, Heads, HeadsAs, WithPress};

use ring::Rule;

// The largest i32.
const MOST: u32 = 2147483647;

// What a step asks for: the second press or the first adds a contour of so many points, or removes its newest; all
// contours are cleaned by a rule; a point is asked of a press's contours.
#[derive(Clone, Copy)]
pub enum Kind {
    Adds(bool, usize),
    Removes(bool),
    Cleans(Rule),
    Asks(bool),
}

// What is read of a step: what it asks for, and how many numbers it takes.
#[derive(Clone, Copy)]
pub struct Head {
    pub kind: Kind,
    pub size: usize,
}

// The bits of number i.
fn bits(row: &[i32], i: usize) -> u32
    requires { i < length row.now }
    ensures { Bits row.now i result }
{
    row[i].cast_unsigned()
}

// A head, if all its numbers are there.
fn if_there(kind: Kind, size: usize, left: usize) -> Option<Head>
    ensures { result ≡ head_if (leb size left) (head_of kind size) }
{
    if left < size {
        return None;
    }
    Some(Head { kind, size })
}

// Kind 0, whose press is one of two.
fn adding(row: &[i32], second: bool) -> Option<Head>
    requires { (pressed row.now ≡ true) × (second ≡ second_of row.now) }
    ensures { HeadsAs (pos 0) row.now result }
{
    if row.len() < 3 {
        return None;
    }
    let n = bits(row, 2);
    if n > MOST {
        return None;
    }
    let count = n as usize;
    if_there(Kind::Adds(second, count), 5 + 2 * count, row.len())
}

// A kind with a press: 0, 1 or 4.
fn with_press(row: &[i32], kind: u32) -> Option<Head>
    requires { WithPress kind }
    ensures { HeadsAs (pos kind) row.now result }
{
    if row.len() < 2 {
        return None;
    }
    let press = bits(row, 1);
    if press > 1 {
        return None;
    }
    let second = press == 1;
    if kind == 1 {
        return if_there(Kind::Removes(second), 4, row.len());
    }
    if kind == 4 {
        return if_there(Kind::Asks(second), 6, row.len());
    }
    adding(row, second)
}

// What the row begins with, if that is a step.
pub fn read(row: &[i32]) -> Option<Head>
    requires { 0 < length row.now }
    ensures { Heads row.now result }
{
    let kind = bits(row, 0);
    if kind > 4 {
        return None;
    }
    if kind == 2 {
        return if_there(Kind::Cleans(Rule::Collinear), 3, row.len());
    }
    if kind == 3 {
        return if_there(Kind::Cleans(Rule::Spike), 3, row.len());
    }
    with_press(row, kind)
}
