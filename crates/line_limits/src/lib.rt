// 01's limits of a card and of its lines.

// How many bytes a card has at most: more are refused by 3.
#![tactic(auto)]

pub const CARD: usize = 32768;

// One byte more: a buffer of that length tells a card that is too long.
pub const OVER: usize = CARD + 1;

// How many unfolded lines stand between BEGIN and END at most.
pub const LINES: usize = 512;

// How many parameters a line has at most.
pub const PARAMS: usize = 32;

// How many values its parameters have at most in all.
pub const VALUES: usize = 64;
