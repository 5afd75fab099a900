// Reads a list of cases on standard input, and writes for each what the library answers.
//
// A line is a case: its kind, then numbers, each after one space, and rows, which are given as they are, so that they
// may be sound or not. A list that is damaged is replayed up to the first byte that cannot stand where it does, and
// that place is written.
#![tactic(auto)]

mod answering;
mod list;

use cases::given::{BYTES, FLOATS, NUMBERS, RECORDS, Rows};
use cases::source;
use cases::source::LINE;
use std::io;

fn main(rt: HostRuntime) -> io::Result<()> {
    let mut reading = source::begin(rt.stdin());
    let mut line = [0u8; LINE];
    let mut rows = Rows {
        numbers: [0; NUMBERS],
        records: [[0; 2]; RECORDS],
        bytes: [0; BYTES],
        floats: [0.0; FLOATS],
    };
    rt.stdout().write_all(b"case answers\n")?;
    list::replay(&rt, &mut reading, &mut line, &mut rows)
}
