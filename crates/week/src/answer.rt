// What the files of a week came to.
use figures::Figures;

// The figures, how many files were counted, whether one more would have been too many, and whether the last was taken to be all that was left.
#[derive(Clone, Copy)]
pub struct Week {
    pub figures: Figures,
    pub files: u32,
    pub full: bool,
    pub untold: bool,
}
