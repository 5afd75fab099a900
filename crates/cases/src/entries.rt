// The entries of a row, as they are read.
ghost use Rattle.std.specs.Prelude.{◌<◌, ◌≤◌, IfOk, length};

use crate::line::{Damage, LARGEST, Line};
use std::num::f64_from_bits_with_nan;

// An entry that a line can say to stand several times.
pub trait Entry: Copy {
    fn read(line: &mut Line<'_>) -> Result<Self, Damage>;
}

// A command's kind.
impl Entry for u8 {
    fn read(line: &mut Line<'_>) -> Result<u8, Damage> {
        let kind = line.number(255)?;
        Ok(kind as u8)
    }
}

// A record: a start and an end.
impl Entry for [usize; 2] {
    fn read(line: &mut Line<'_>) -> Result<[usize; 2], Damage> {
        let start = line.number(LARGEST)?;
        let end = line.after_space(LARGEST)?;
        Ok([start, end])
    }
}

// A float, by the sixteen digits of its bits.
impl Entry for f64 {
    fn read(line: &mut Line<'_>) -> Result<f64, Damage> {
        let mut bits: u64 = 0;
        for _ in 0..16 {
            bits = bits << 4 | u64::from(line.hex_digit()?);
        }
        Ok(f64_from_bits_with_nan(bits))
    }
}

// Reads entries, each after one space and with how often it stands, and answers how many places of the row they fill.
pub fn read<T: Entry>(line: &mut Line<'_>, row: &mut [T]) -> Result<usize, Damage>
    ensures { IfOk result (λ n. n ≤ length row.old) }
{
    let mut end: usize = 0;
    while end < row.len() && line.take(b' ') {
        let entry = T::read(line)?;
        let times = line.times(row.len() - end)?;
        for place in &mut row[end..end + times] {
            *place = entry;
        }
        end += times;
    }
    Ok(end)
}

// Reads how many entries there are and then these, which fill so many places.
pub fn read_counted<T: Entry>(line: &mut Line<'_>, row: &mut [T]) -> Result<usize, Damage>
    ensures { IfOk result (λ n. n ≤ length row.old) }
{
    let count = line.after_space(row.len())?;
    let end = read(line, &mut row[..count])?;
    if end < count {
        return Err(line.damage());
    }
    Ok(count)
}

// Reads numbers, each after one space, and repeats them all where a star stands in a number's place.
pub fn read_numbers(line: &mut Line<'_>, row: &mut [i32]) -> Result<usize, Damage>
    ensures { IfOk result (λ n. n ≤ length row.old) }
{
    for end in 0..row.len() {
        if !line.take(b' ') {
            return Ok(end);
        }
        if line.peek() == Some(b'*') {
            return read_times(line, row, end);
        }
        row[end] = line.signed()?;
    }
    Ok(row.len())
}

// Reads a file's pieces, each after one space, as long as the row has room; what follows is left in the line.
pub fn read_file(line: &mut Line<'_>, row: &mut [u8]) -> Result<usize, Damage>
    ensures { IfOk result (λ n. n ≤ length row.old) }
{
    let mut end = 0;
    while end < row.len() && line.take(b' ') {
        end += read_piece(line, &mut row[end..])?;
    }
    Ok(end)
}

// Reads every piece that follows, each after one space; one that finds no room left is damage where it stands.
pub fn read_every_piece(line: &mut Line<'_>, row: &mut [u8]) -> Result<usize, Damage>
    ensures { IfOk result (λ n. n ≤ length row.old) }
{
    let mut end: usize = 0;
    while line.take(b' ') {
        end += read_piece(line, &mut row[end..])?;
    }
    Ok(end)
}

// Reads one byte or more, and how often they stand there.
fn read_piece(line: &mut Line<'_>, row: &mut [u8]) -> Result<usize, Damage>
    ensures some { IfOk result (λ n. 0 < n) }
    ensures within { IfOk result (λ n. n ≤ length row.old) }
{
    let count = read_bytes(line, row)?;
    if count == 0 {
        return Err(line.damage());
    }
    read_times(line, row, count)
}

// Reads bytes, of two hexadecimal digits each, as long as digits follow.
fn read_bytes(line: &mut Line<'_>, row: &mut [u8]) -> Result<usize, Damage>
    ensures { IfOk result (λ n. n ≤ length row.old) }
{
    for (end, byte) in row.iter_mut().enumerate() {
        let Some(upper) = line.take_digit(16) else {
            return Ok(end);
        };
        *byte = upper * 16 + line.hex_digit()?;
    }
    Ok(row.len())
}

// Reads how often the first `count` entries stand in the row, puts them there, and answers how many they then are.
fn read_times<T: Copy>(line: &mut Line<'_>, row: &mut [T], count: usize) -> Result<usize, Damage>
    ensures once { IfOk result (λ n. count ≤ length row.old → count ≤ n) }
    ensures within { IfOk result (λ n. n ≤ length row.old) }
{
    let most = row.len().checked_div(count).unwrap_or(LARGEST);
    let times = line.times(most)?;
    let end = count.saturating_mul(times).min(row.len());
    repeat(&mut row[..end], count);
    Ok(end)
}

// Fills the row with its first `count` entries, over and over: an entry is read where an earlier round may have written it.
fn repeat<T: Copy>(row: &mut [T], count: usize) {
    for i in count..row.len() {
        row[i] = row[i - count];
    }
}
