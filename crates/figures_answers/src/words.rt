// Figures as words of 32 bits: the totals, then two each of the points before and after, the decisions and the high half,
// of which the upper is the first, and the low half.
use cases::checksum;
use cases::checksum::Summed;
use figures::Figures;

pub const WORDS: usize = 31;

// The words of two figures, which are 0 unless they are given, each by two pairs: its place and any number, then its upper
// and its lower half.
pub fn put(given: &[[usize; 2]]) -> [[u32; WORDS]; 2] {
    let mut words = [[0; WORDS]; 2];
    for [place, halves] in given.as_chunks::<2>().0 {
        let at = place[0];
        if at < 2 * WORDS {
            let word = halves[0] % 65536 * 65536 + halves[1] % 65536;
            words[at / WORDS][at % WORDS] = word as u32;
        }
    }
    words
}

fn long(upper: u32, lower: u32) -> u64 {
    u64::from(upper) << 32 | u64::from(lower)
}

// The figures of these words.
pub fn figures(words: &[u32; WORDS]) -> Figures {
    let mut totals = [0; 22];
    totals.copy_from_slice(&words[..22]);
    Figures {
        totals,
        before: long(words[22], words[23]),
        after: long(words[24], words[25]),
        decisions: long(words[26], words[27]),
        high: long(words[28], words[29]).cast_signed(),
        low: words[30],
    }
}

// The checksum of all fields of figures, of the high half its distance from 0, then 1 if it is below, or 0.
pub fn checksum(f: Figures) -> u32 {
    let sum = checksum::of(&f.totals);
    let counts = f
        .decisions
        .added_to(f.after.added_to(f.before.added_to(sum)));
    let distance = f.high.unsigned_abs().added_to(counts);
    let high = checksum::added(distance, u32::from(f.high < 0));
    checksum::added(high, f.low)
}
