// What asks that its contour is not refused.
pub mod lacking;
pub mod look;
pub mod settling;
pub mod verdicts;
