// How a file's pieces fill a row that they fit, and one that they do not.
use crate::entries::{read_every_piece, read_file};
use crate::given::{BYTES, FLOATS, NUMBERS, RECORDS, Rows};
use crate::{case, line};

#[test]
fn a_file_leaves_in_the_line_what_finds_no_room(rt: HostRuntime) {
    let mut row = [0u8; 3];
    let mut line = line::begin(b" 0a 0b 0c x");
    let read = read_file(&mut line, &mut row);
    assert_eq!(rt; (read.ok(), line.at), (Some(3), 9));
    assert_eq!(rt; row, [10, 11, 12]);
    let mut line = line::begin(b" 0a0b");
    let read = read_file(&mut line, &mut row);
    assert_eq!(rt; (read.ok(), line.at), (Some(2), 5));
    let mut line = line::begin(b" 0a*4");
    let read = read_file(&mut line, &mut row);
    assert_eq!(rt; read.err().map(|damage| damage.at), Some(4));
    let mut line = line::begin(b" 0a");
    let read = read_file(&mut line, &mut []);
    assert_eq!(rt; (read.ok(), line.at), (Some(0), 0));
}

#[test]
fn a_piece_that_finds_no_room_is_damage(rt: HostRuntime) {
    let mut row = [0u8; 3];
    let mut line = line::begin(b" 0a 0b 0c x");
    let read = read_every_piece(&mut line, &mut row);
    assert_eq!(rt; read.err().map(|damage| damage.at), Some(10));
    assert_eq!(rt; row, [10, 11, 12]);
    let mut line = line::begin(b" 0a0b");
    let read = read_every_piece(&mut line, &mut row);
    assert_eq!(rt; (read.ok(), line.at), (Some(2), 5));
    let mut line = line::begin(b" 0a");
    let read = read_every_piece(&mut line, &mut []);
    assert_eq!(rt; read.err().map(|damage| damage.at), Some(1));
}

#[test]
fn a_case_has_no_piece_behind_a_full_row(rt: HostRuntime) {
    let mut rows = Rows {
        numbers: [0; NUMBERS],
        records: [[0; 2]; RECORDS],
        bytes: [0; BYTES],
        floats: [0.0; FLOATS],
    };
    let read = case::read(b"m 0 0 00*131200 ", &mut rows);
    assert_eq!(rt; read.err().map(|damage| damage.at), Some(16));
}
