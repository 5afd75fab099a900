// The last line: how many lines of a listing have each kind.
ghost use Rattle.std.specs.Prelude.{◌≡◌, ◌+◌, ◌≤◌, length};
ghost use Rattle.report.specs.inside.Lines.{Put};
ghost use Rattle.changes.specs.Words.{of_kind, how_many, counts as counts_of};

use difference::kind;
use report::inner::text;

// How many lines have this kind.
fn counted(listing: &[[usize; 2]], kind: usize) -> usize
    ensures { result ≡ of_kind kind listing.now }
{
    listing.iter().filter(|line| line[0] == kind).count()
}

// Puts a word, and how many lines have this kind.
fn put_count(text: &mut [u8], at: usize, word: &[u8], listing: &[[usize; 2]], kind: usize) -> usize
    requires { at + length (how_many word.now kind listing.now) ≤ length text.old }
    ensures { Put at (how_many word.now kind listing.now)
        text.old result text.new }
{
    let n = counted(listing, kind);
    let behind = text::put(text, at, word);
    text::put_number(text, behind, n as u64)
}

// Puts the counts of all kinds.
pub fn put(listing: &[[usize; 2]], text: &mut [u8], at: usize) -> usize
    requires { at + length (counts_of listing.now) ≤ length text.old }
    ensures { Put at (counts_of listing.now) text.old result text.new }
{
    let second = put_count(text, at, b"the same: ", listing, kind::SAME);
    let third = put_count(
        text,
        second,
        b", started elsewhere: ",
        listing,
        kind::ELSEWHERE,
    );
    let fourth = put_count(text, third, b", different: ", listing, kind::DIFFERENT);
    let fifth = put_count(
        text,
        fourth,
        b", only in the first: ",
        listing,
        kind::ONLY_FIRST,
    );
    let sixth = put_count(
        text,
        fifth,
        b", only in the second: ",
        listing,
        kind::ONLY_SECOND,
    );
    text::put(text, sixth, b"\n")
}
