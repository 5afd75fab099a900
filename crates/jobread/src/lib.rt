// A job's text, read back into the rows of a set.
#![tactic(auto)]

pub mod inner;

use replies::Refusal;

// Where in a text its reader is.
#[derive(Clone, Copy)]
pub enum Place {
    // Behind so many characters of the line of the edition.
    Head(usize),
    // In front of a line.
    Start,
    // Behind so many characters of the word of a contour, which begins a shape or not.
    Word(bool, usize),
    // Behind a space.
    Space,
    // Behind the dash of a number below zero.
    Dash,
    // Behind digits of a number, which is below zero or not and of this size so far.
    Number(bool, usize),
    // Behind what is no line of an edition.
    NoHead,
    // Behind what is no line of a contour.
    NoLine,
    // Behind what is refused.
    Refused(Refusal),
}

// A reader: its place; whether the contour of its line begins a shape; how many points stand before that line; how many numbers, contours
// and shapes came; and which contour began the last shape.
#[derive(Clone, Copy)]
pub struct Reader {
    pub place: Place,
    pub begins: bool,
    pub start: usize,
    pub numbers: usize,
    pub contours: usize,
    pub shapes: usize,
    pub first: usize,
}
