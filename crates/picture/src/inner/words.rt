// Words with numbers behind them.
ghost use Rattle.std.specs.Prelude.{◌++◌, ◌+◌, ◌≤◌, length};
ghost use Rattle.report.specs.Text.{decimal};
ghost use Rattle.report.specs.inside.Lines.{Put};

use report::inner::text;

// Puts a word, and a number behind it.
fn put_one(text: &mut [u8], at: usize, word: &[u8], n: u64) -> usize
    requires { at + length (word.now ++ decimal n) ≤ length text.old }
    ensures { Put at (word.now ++ decimal n) text.old result text.new }
{
    let behind = text::put(text, at, word);
    text::put_number(text, behind, n)
}

// Puts a word and a number, and another two behind them.
pub fn put_two(text: &mut [u8], at: usize, one: &[u8], m: u64, other: &[u8], n: u64) -> usize
    requires { at + length ((one.now ++ decimal m) ++ (other.now ++ decimal n)) ≤ length text.old }
    ensures { Put at ((one.now ++ decimal m) ++ (other.now ++ decimal n))
        text.old result text.new }
{
    let behind = put_one(text, at, one, m);
    put_one(text, behind, other, n)
}
