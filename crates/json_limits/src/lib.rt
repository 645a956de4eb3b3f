// 01's limits of a JSON text.

// How many bytes a text has at most: more are refused by 3.
#![tactic(auto)]

pub const ROOM: usize = 65536;

// One byte more: a buffer of that length tells a text that is too long.
pub const OVER: usize = ROOM + 1;

// How deep values stand in each other at most.
pub const DEPTH: usize = 16;

// How deep the members of a text's object may be.
pub const INNER: usize = DEPTH - 1;

// A name takes so many bytes of a text at least, with its quotes and the brace or comma before it.
pub const NAME: usize = 4;

// How many names a text has at most.
pub const NAMES: usize = ROOM / NAME;
