// The checksum of a row: from 0 on, each number is added to 31 times what was there, modulo 2^32.
use std::num::f64_to_bits_with_nan;

// What a checksum can be made of.
pub trait Summed {
    // The checksum with one more.
    fn added_to(&self, sum: u32) -> u32;
}

// The checksum with one number more.
pub fn added(sum: u32, number: u32) -> u32 {
    sum.wrapping_mul(31).wrapping_add(number)
}

// The checksum of a row.
pub fn of<T: Summed>(row: &[T]) -> u32 {
    with_all(0, row)
}

// The checksum with a row more.
pub fn with_all<T: Summed>(sum: u32, row: &[T]) -> u32 {
    row.iter().fold(sum, |sum, entry| entry.added_to(sum))
}

// The last 32 bits of a number.
pub fn lower(number: u64) -> u32 {
    (number % 4294967296) as u32
}

// The 32 bits before them.
pub fn upper(number: u64) -> u32 {
    (number / 4294967296) as u32
}

impl Summed for u8 {
    fn added_to(&self, sum: u32) -> u32 {
        added(sum, u32::from(*self))
    }
}

impl Summed for u32 {
    fn added_to(&self, sum: u32) -> u32 {
        added(sum, *self)
    }
}

// By its bits.
impl Summed for i32 {
    fn added_to(&self, sum: u32) -> u32 {
        added(sum, self.cast_unsigned())
    }
}

// A count, or a start or an end, by its last 32 bits.
impl Summed for usize {
    fn added_to(&self, sum: u32) -> u32 {
        added(sum, lower(*self as u64))
    }
}

// A number of 64 bits as two, of which the upper is the first.
impl Summed for u64 {
    fn added_to(&self, sum: u32) -> u32 {
        added(added(sum, upper(*self)), lower(*self))
    }
}

// By its bits, of a NaN by one pattern.
impl Summed for f64 {
    fn added_to(&self, sum: u32) -> u32 {
        f64_to_bits_with_nan(*self).added_to(sum)
    }
}

// A record by its numbers.
impl<const N: usize> Summed for [usize; N] {
    fn added_to(&self, sum: u32) -> u32 {
        with_all(sum, self)
    }
}
