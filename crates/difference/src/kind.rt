// The kinds of the lines of a listing, numbers since C reads them in a row. Behind its kind a line has a place, 0 where there is none to say.

// The two contours are the same.
pub const SAME: usize = 0;

// They are the same once the second starts at the place.
pub const ELSEWHERE: usize = 1;

// They differ, first at the place.
pub const DIFFERENT: usize = 2;

// Only the first set has this contour.
pub const ONLY_FIRST: usize = 3;

// Only the second set has it.
pub const ONLY_SECOND: usize = 4;
