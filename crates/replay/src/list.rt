// The list of cases, replayed line by line.
use crate::answering;
use cases::given::Rows;
use cases::source::{LINE, Reading};
use cases::{case, text};
use std::io;

// Replays the list to its end. No list has so many lines that their count ends the loop.
pub fn replay<R: io::Read>(
    rt: &HostRuntime,
    reading: &mut Reading<R>,
    line: &mut [u8; LINE],
    rows: &mut Rows,
) -> io::Result<()> {
    for number in 1..u64::MAX {
        let Some(length) = reading.read_line(line)? else {
            return Ok(());
        };
        if !replay_line(rt, number, length, line, rows) {
            return Ok(());
        }
    }
    Ok(())
}

// Replays the case on the line of that length, and answers whether the next is to be replayed.
fn replay_line(rt: &HostRuntime, number: u64, length: usize, line: &[u8], rows: &mut Rows) -> bool {
    if line.len() <= length {
        text::write_damage(rt, number, LINE - 1);
        return false;
    }
    match case::read(&line[..length], rows) {
        Ok(case) => answering::of_case(case, rows).write(rt, number),
        Err(damage) => {
            text::write_damage(rt, number, damage.at);
            false
        }
    }
}
