// A recorded shift of the cutter, replayed over a fresh pool up to the first step that differs.
#![tactic(auto)]

pub mod inner;

// The answer of a replay: its reply number, whether a step differs, how many agree before it, the place of its first number, or of what is no step; what was recorded of it and what is told now, and how many contours the pool then holds.
#[repr(C)]
#[derive(Clone, Copy)]
pub struct Replayed {
    pub reply: u32,
    pub differs: u32,
    pub agreed: usize,
    pub place: usize,
    pub recorded_reply: i32,
    pub recorded_result: i32,
    pub reply_now: i32,
    pub result_now: i32,
    pub contours: usize,
}
