// The walk over the surviving positions of a ring: its rule, and how it ended. What walks is inner.
#![tactic(auto)]

pub mod inner;

// Which vertex is to go.
#[derive(Clone, Copy)]
pub enum Rule {
    // One whose two edges have cross 0.
    Collinear,
    // One equal to either neighbour, or where the way reverses.
    Spike,
}

// How a walk ended, and after how many decisions; kept, at which marked position it was met that nothing goes any more.
#[derive(Clone, Copy)]
pub struct Ending {
    pub kept: bool,
    pub decisions: usize,
    pub at: usize,
}
