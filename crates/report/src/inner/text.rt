// Words and numbers as text, put into a row behind what stands there.
ghost use Rattle.std.specs.Prelude.{◌++◌, ◌+◌, ◌≤◌, ◌<◌, length};
ghost use Rattle.io.specs.Digits.{last_digits};
ghost use Rattle.report.specs.Text.{decimal, signed, line_end};
ghost use Rattle.report.specs.inside.Lines.{Put};

// Puts a word into the text from `at` on, and answers where it ends.
pub fn put(text: &mut [u8], at: usize, word: &[u8]) -> usize
    requires { at + length word.now ≤ length text.old }
    ensures { Put at word.now text.old result text.new }
{
    rows::inner::copy(word, text, at);
    at + word.len()
}

// Puts a number of one digit.
pub fn put_one(text: &mut [u8], at: usize, n: u32) -> usize
    requires { (n < 10) × (at + 1 ≤ length text.old) }
    ensures { Put at (last_digits 10 1 n) text.old result text.new }
{
    text[at] = b'0' + n as u8;
    at + 1
}

// Puts a number as two digits.
fn put_two(text: &mut [u8], at: usize, n: u32) -> usize
    requires { (n < 100) × (at + 2 ≤ length text.old) }
    ensures { Put at (last_digits 10 2 n) text.old result text.new }
{
    let behind = put_one(text, at, n / 10);
    put_one(text, behind, n % 10)
}

// Puts a number as four digits.
fn put_four(text: &mut [u8], at: usize, n: u32) -> usize
    requires { (n < 10000) × (at + 4 ≤ length text.old) }
    ensures { Put at (last_digits 10 4 n) text.old result text.new }
{
    let behind = put_two(text, at, n / 100);
    put_two(text, behind, n % 100)
}

// Puts a number as eight digits.
pub fn put_eight(text: &mut [u8], at: usize, n: u32) -> usize
    requires { (n < 100000000) × (at + 8 ≤ length text.old) }
    ensures { Put at (last_digits 10 8 n) text.old result text.new }
{
    let behind = put_four(text, at, n / 10_000);
    put_four(text, behind, n % 10_000)
}

// Puts a number of at most four digits.
fn put_short(text: &mut [u8], at: usize, n: u32) -> usize
    requires { (n < 10000) × (at + length (decimal n) ≤ length text.old) }
    ensures { Put at (decimal n) text.old result text.new }
{
    if n < 10 {
        return put_one(text, at, n);
    }
    if n < 100 {
        return put_two(text, at, n);
    }
    if n < 1_000 {
        let behind = put_one(text, at, n / 100);
        return put_two(text, behind, n % 100);
    }
    put_four(text, at, n)
}

// Puts a number of at most eight digits.
fn put_middling(text: &mut [u8], at: usize, n: u32) -> usize
    requires { (n < 100000000) × (at + length (decimal n) ≤ length text.old) }
    ensures { Put at (decimal n) text.old result text.new }
{
    if n < 10_000 {
        return put_short(text, at, n);
    }
    let behind = put_short(text, at, n / 10_000);
    put_four(text, behind, n % 10_000)
}

// Puts a number of at most sixteen digits.
fn put_long(text: &mut [u8], at: usize, n: u64) -> usize
    requires { (n < 10000000000000000) × (at + length (decimal n) ≤ length text.old) }
    ensures { Put at (decimal n) text.old result text.new }
{
    if n < 100_000_000 {
        return put_middling(text, at, n as u32);
    }
    let behind = put_middling(text, at, (n / 100_000_000) as u32);
    put_eight(text, behind, (n % 100_000_000) as u32)
}

// Puts a number.
pub fn put_number(text: &mut [u8], at: usize, n: u64) -> usize
    requires { at + length (decimal n) ≤ length text.old }
    ensures { Put at (decimal n) text.old result text.new }
{
    if n < 100_000_000 {
        return put_middling(text, at, n as u32);
    }
    let behind = put_long(text, at, n / 100_000_000);
    put_eight(text, behind, (n % 100_000_000) as u32)
}

// Puts a number with its sign.
pub fn put_signed(text: &mut [u8], at: usize, z: i64) -> usize
    requires { at + length (signed z) ≤ length text.old }
    ensures { Put at (signed z) text.old result text.new }
{
    let behind = if z < 0 { put(text, at, b"-") } else { at };
    put_number(text, behind, z.unsigned_abs())
}

// Puts a number between two words.
pub fn put_between(text: &mut [u8], at: usize, word: &[u8], n: u64, behind: &[u8]) -> usize
    requires { at + length (word.now ++ decimal n ++ behind.now) ≤ length text.old }
    ensures { Put at (word.now ++ decimal n ++ behind.now)
        text.old result text.new }
{
    let second = put(text, at, word);
    let third = put_number(text, second, n);
    put(text, third, behind)
}

// Puts a word, a number behind it, and the end of the line.
pub fn put_line(text: &mut [u8], at: usize, word: &[u8], n: u64) -> usize
    requires { at + length (word.now ++ decimal n ++ line_end) ≤ length text.old }
    ensures { Put at (word.now ++ decimal n ++ line_end)
        text.old result text.new }
{
    put_between(text, at, word, n, b"\n")
}
