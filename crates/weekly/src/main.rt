// Reads set files that stand one behind the other on standard input, and writes the figures of them all, in words, on standard output.
#![tactic(auto)]

ghost use Rattle.std.specs.Prelude.{◌≡◌, true, ◌-◌, ◌≤◌, length, take, drop, IfOk};
ghost use Rattle.report.specs.inside.Lines.{Put};
ghost use Rattle.figures.specs.Joining.{possible};

use report::inner::text;
use std::io;
use std::io::Read;
use week::inner::{counting, ending, saying};
use week::{TEXT, Week};

// One byte past the most that a file has, so that a longer one is told from it.
const WINDOW: usize = 65537;

// The most files that are counted.
const FILES: u32 = 4294967295;

// Moves the bytes from k up to n to the front, and answers how many they are.
fn move_down(window: &mut [u8], k: usize, n: usize) -> usize
    requires { (k ≤ n) × (n ≤ length window.old) × (length window.old ≡ 65537) }
    ensures { Put 0 (take (n - k) (drop k window.old)) window.old result window.new }
{
    let mut rest = [0u8; WINDOW];
    let m = n - k;
    rows::inner::copy(&window[k..n], &mut rest, 0);
    text::put(window, 0, &rest[..m])
}

// Drops the first k of n bytes, and reads on behind the others; answers how many there are then.
fn read_on<R: Read>(stream: &mut R, window: &mut [u8], k: usize, n: usize) -> io::Result<usize>
    requires { (k ≤ n) × (n ≤ length window.old) × (length window.old ≡ 65537) }
    ensures { IfOk result (λ m. m ≤ length window.new) }
{
    let left = move_down(window, k, n);
    let more = streams::read_full(stream, &mut window[left..])?;
    Ok(left + more)
}

// Counts file after file, until none is left, or one is too many, or it is not told where one ends.
fn count_all<R: Read>(stream: &mut R, window: &mut [u8]) -> io::Result<Week>
    requires { length window.old ≡ 65537 }
    ensures { IfOk result (λ week. possible week.figures ≡ true) }
{
    let mut week = Week {
        figures: figures::none(),
        files: 0,
        full: false,
        untold: false,
    };
    let mut n = streams::read_full(stream, window)?;
    while n != 0 {
        if week.files == FILES {
            return Ok(week);
        }
        let Some(k) = ending::first_length(&window[..n]) else {
            return Ok(counting::count(week, &window[..n], true));
        };
        week = counting::count(week, &window[..k], false);
        if week.full {
            return Ok(week);
        }
        n = read_on(stream, window, k, n)?;
    }
    Ok(week)
}

fn main(rt: HostRuntime) -> io::Result<()> {
    let mut window = [0u8; WINDOW];
    let mut text = [0u8; TEXT];
    let week = count_all(&mut rt.stdin(), &mut window)?;
    let n = saying::put(week, &mut text);
    rt.stdout().write_all(&text[..n])
}
