// What is said of a week.
ghost use Rattle.std.specs.Prelude.{◌≡◌, true, ◌+◌, ◌≤◌, length};
ghost use Rattle.report.specs.inside.Lines.{Put};
ghost use Rattle.figures.specs.Joining.{possible};
ghost use Rattle.week.specs.Table.{if_so, said};

use crate::Week;
use crate::inner::table;
use report::inner::text;

// Puts a word, if this is so.
fn put_if(text: &mut [u8], at: usize, so: bool, word: &[u8]) -> usize
    requires { at + length (if_so so word.now) ≤ length text.old }
    ensures { Put at (if_so so word.now) text.old result text.new }
{
    if so { text::put(text, at, word) } else { at }
}

// Puts the table, how many files were counted, and why no more were; answers where that ends.
pub fn put(week: Week, text: &mut [u8]) -> usize
    requires figures_value { possible week.figures ≡ true }
    requires in_bounds { 1024 ≤ length text.old }
    ensures { Put 0 (said week) text.old result text.new }
{
    let second = table::put(week.figures, text);
    let third = text::put_line(text, second, b"files counted: ", u64::from(week.files));
    let fourth = put_if(
        text,
        third,
        week.full,
        b"no more were counted: 65,535 contours and refused files are the most (21)\n",
    );
    put_if(
        text,
        fourth,
        week.untold,
        b"where the last file ends is not told, so it was taken to be all that was left\n",
    )
}
