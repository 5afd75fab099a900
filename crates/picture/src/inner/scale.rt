// The scale below the job, with which a picture ends.
ghost use Rattle.std.specs.Prelude.{◌≡◌, ◌+◌, ◌≤◌, ◌<◌, length};
ghost use Rattle.report.specs.inside.Lines.{Put};
ghost use Rattle.picture.specs.Frame.{bar as bar_of, label};
ghost use Rattle.picture.specs.inside.Parts.{Small, closing};

use crate::inner::frame::Sizes;
use crate::inner::words;
use report::inner::text;

// How long the bar is, in micrometres: the largest power of ten that is no longer than so many units, or 1.
fn bar(width: u64) -> u64
    requires { width < 4294967296 }
    ensures { result ≡ bar_of width }
{
    let mut long: u64 = 1;
    for k in 0..9usize {
        if 125 * width < 1280 * long {
            return long;
        }
        long *= 10;
    }
    long
}

// Puts how long that is, in millimetres.
fn put_label(text: &mut [u8], at: usize, long: u64) -> usize
    requires { at + length (label long) ≤ length text.old }
    ensures { Put at (label long) text.old result text.new }
{
    if 1000 <= long {
        return text::put_number(text, at, long / 1000);
    }
    if 100 <= long {
        return text::put(text, at, b"0.1");
    }
    if 10 <= long {
        return text::put(text, at, b"0.01");
    }
    text::put(text, at, b"0.001")
}

// Puts the end of a picture, behind its last dot.
pub fn put_closing(text: &mut [u8], at: usize, s: Sizes) -> usize
    requires { Small s × (at + length (closing s) ≤ length text.old) }
    ensures { Put at (closing s) text.old result text.new }
{
    let long = bar(s.width);
    let second = words::put_two(
        text,
        at,
        b"</g>\n<g transform=\"translate(",
        s.letter,
        b" ",
        s.height + 5 * s.letter,
    );
    let third = words::put_two(
        text,
        second,
        b") scale(1.024)\" font-size=\"",
        s.letter,
        b"\">\n<path class=\"scale\" d=\"M0 0h",
        long,
    );
    let fourth = text::put(text, third, b"\"/>\n<text y=\"1.4em\">");
    let fifth = put_label(text, fourth, long);
    text::put(text, fifth, b" mm</text>\n</g>\n</svg>\n")
}
