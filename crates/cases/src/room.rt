// The longest rows that can be lent (to a set, to the records of what is read of a file, and to anything else), and parts
// of rows.
pub const SET: usize = 550;

pub const SET_NUMBERS: usize = 1100;

pub const READ: usize = 4100;

pub const LONG: usize = 65600;

pub const LONG_NUMBERS: usize = 131200;

// The front of a row: so many entries, or all.
pub fn front<T>(row: &[T], length: usize) -> &[T] {
    &row[..length.min(row.len())]
}

// The same, that can be written to.
pub fn front_mut<T>(row: &mut [T], length: usize) -> &mut [T] {
    let end = length.min(row.len());
    &mut row[..end]
}

// A row without its last entries, so many or all, and these.
pub fn parted<T>(row: &[T], behind: usize) -> (&[T], &[T]) {
    row.split_at(row.len().saturating_sub(behind))
}

// The part of a row from a start to an end, as far as the row has it.
pub fn part<T>(row: &[T], of: [usize; 2]) -> &[T] {
    let whole = front(row, of[1]);
    &whole[of[0].min(whole.len())..]
}
