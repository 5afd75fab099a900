// The line that is to be written, gathered as far as it has room.
ghost use Rattle.std.specs.Prelude.{◌≤◌};

// Room for the longest line of answers.
pub const TEXT: usize = 512;

#[derive(Drop)]
pub struct Text {
    pub bytes: [u8; TEXT],
    pub length: usize,
    ghost inside: { length ≤ 512 },
}

// A line with nothing in it.
pub fn begin() -> Text {
    Text {
        bytes: [0; TEXT],
        length: 0,
    }
}

impl Text {
    // Puts a word behind what is there.
    pub fn put(&mut self, word: &[u8]) {
        let room = &mut self.bytes[self.length..];
        let count = word.len().min(room.len());
        room[..count].copy_from_slice(&word[..count]);
        self.length += count;
    }

    // Puts a number.
    pub fn put_number(&mut self, value: u64) {
        let mut digits = [0u8; 20];
        let count = io::decimal(value, &mut digits);
        self.put(&digits[..count]);
    }

    // Puts `mark` and a number.
    pub fn put_after(&mut self, mark: &[u8], value: u64) {
        self.put(mark);
        self.put_number(value);
    }

    // Writes what is there and a line's end, and answers whether that went well.
    pub fn write(&mut self, rt: &impl Print) -> bool {
        self.put(b"\n");
        rt.write_all(&self.bytes[..self.length]).is_ok()
    }
}

// Writes that a line is damaged at a place, counted from 1.
pub fn write_damage(rt: &impl Print, line: u64, at: usize) {
    let mut text = begin();
    text.put_after(b"damaged: line ", line);
    text.put_after(b", byte ", (at as u64).wrapping_add(1));
    text.write(rt);
}
