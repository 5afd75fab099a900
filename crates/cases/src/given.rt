// The rows that a case fills and lends.

// How many entries each has.
pub const NUMBERS: usize = 131200;

pub const RECORDS: usize = 65600;

pub const BYTES: usize = 131200;

pub const FLOATS: usize = 140100;

#[derive(Drop)]
pub struct Rows {
    pub numbers: [i32; NUMBERS],
    pub records: [[usize; 2]; RECORDS],
    pub bytes: [u8; BYTES],
    pub floats: [f64; FLOATS],
}

// A set: its numbers, and the records of its contours and of its shapes.
#[derive(Clone, Copy)]
pub struct Set<'a> {
    pub points: &'a [i32],
    pub contours: &'a [[usize; 2]],
    pub shapes: &'a [[usize; 2]],
}
