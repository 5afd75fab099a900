// A line of the list, read from the front.
ghost use Rattle.std.specs.Prelude.{◌≡◌, ◌+◌, ◌<◌, ◌≤◌, IfOk, MatchOption, length};

// The largest number, as a start or an end, that a line can have.
pub const LARGEST: usize = 2147483647;

// A line is damaged: the first byte that cannot stand where it does, or the line's end, is at this place.
#[derive(Clone, Copy)]
pub struct Damage {
    pub at: usize,
}

// A line, and the place up to which it was read.
#[derive(Drop)]
pub struct Line<'a> {
    pub bytes: &'a [u8],
    pub at: usize,
    ghost inside: { at ≤ length bytes.now },
}

// What a byte is worth as a hexadecimal digit.
fn digit(byte: u8) -> Option<u8>
    ensures { MatchOption result Unit (λ d. d < 16) }
{
    match byte {
        b'0'..=b'9' => Some(byte - b'0'),
        b'a'..=b'f' => Some(byte - b'a' + 10),
        _ => None,
    }
}

// A line that is to be read.
pub fn begin(bytes: &[u8]) -> Line<'_> {
    Line { bytes, at: 0 }
}

impl<'a> Line<'a> {
    // The next byte.
    pub fn peek(&self) -> Option<u8>
        ensures { MatchOption result Unit (λ b. self.now.at < length self.now.bytes.now) }
    {
        self.bytes.get(self.at).copied()
    }

    // The damage where the next byte cannot stand.
    pub fn damage(&self) -> Damage {
        Damage { at: self.at }
    }

    // Takes the next byte.
    pub fn next(&mut self) -> Option<u8> {
        let byte = self.peek()?;
        self.at += 1;
        Some(byte)
    }

    // Takes the next byte if it is the wanted one, and answers whether it is.
    pub fn take(&mut self, wanted: u8) -> bool {
        let byte = self.peek();
        if byte != Some(wanted) {
            return false;
        }
        self.at += 1;
        true
    }

    // Takes a digit below the radix.
    pub fn take_digit(&mut self, radix: u8) -> Option<u8>
        ensures bytes { self.new.bytes ≡ self.old.bytes }
        ensures digit { MatchOption result Unit (λ d. (d < 16) × (self.new.at ≡ self.old.at + 1)) }
    {
        let digit = digit(self.peek()?)?;
        if radix <= digit {
            return None;
        }
        self.at += 1;
        Some(digit)
    }

    // Reads a hexadecimal digit.
    pub fn hex_digit(&mut self) -> Result<u8, Damage>
        ensures { IfOk result (λ d. d < 16) }
    {
        self.take_digit(16).ok_or(self.damage())
    }

    // Reads one decimal digit or more, which spell `most` or less.
    pub fn number(&mut self, most: usize) -> Result<usize, Damage>
        ensures { IfOk result (λ n. n ≤ most) }
    {
        let start = self.damage();
        let mut value: usize = 0;
        while let Some(digit) = self.take_digit(10) {
            value = value.saturating_mul(10).saturating_add(usize::from(digit));
        }
        if self.at == start.at || most < value {
            return Err(start);
        }
        Ok(value)
    }

    // Reads a space.
    fn space(&mut self) -> Result<(), Damage> {
        if self.take(b' ') {
            return Ok(());
        }
        Err(self.damage())
    }

    // Reads a space and a number up to `most`.
    pub fn after_space(&mut self, most: usize) -> Result<usize, Damage>
        ensures { IfOk result (λ n. n ≤ most) }
    {
        self.space()?;
        self.number(most)
    }

    // Reads a number that fits an i32.
    pub fn signed(&mut self) -> Result<i32, Damage> {
        if self.take(b'-') {
            let size = self.number(2147483648)?;
            return Ok((size as u32).wrapping_neg().cast_signed());
        }
        let size = self.number(LARGEST)?;
        Ok(size as i32)
    }

    // Reads a space and a number that fits an i32.
    pub fn signed_after_space(&mut self) -> Result<i32, Damage> {
        self.space()?;
        self.signed()
    }

    // Reads a star and how often what is before it stands, from once to `most` times; without a star it is once.
    pub fn times(&mut self, most: usize) -> Result<usize, Damage>
        ensures once { IfOk result (λ n. 0 < n) }
        ensures within { IfOk result (λ n. 0 < most → n ≤ most) }
    {
        if !self.take(b'*') {
            return Ok(1);
        }
        let times = self.number(most)?;
        if times == 0 {
            return Err(self.damage());
        }
        Ok(times)
    }

    // The line must be at its end.
    pub fn end(&self) -> Result<(), Damage> {
        match self.peek() {
            Some(_) => Err(self.damage()),
            None => Ok(()),
        }
    }
}
