// Bytes, UTF-8, decimal numbers and readers of byte lists: the definitions and laws below every other layer,
// and the two functions that every reader looks at a byte with.
#![tactic(auto)]

ghost use Rattle.std.specs.Prelude.{◌≡◌, ◌+◌, ◌≤◌, ◌<◌, ◌/◌, length};
ghost use Rattle.text.specs.Bytes.{between};
ghost use Rattle.text.specs.Places.{byte_at};

use std::ops::ControlFlow;

// Characters that readers ask for, as `look` gives them.
pub const QUOTE: u16 = b'"' as u16;

pub const PLUS: u16 = b'+' as u16;

pub const COMMA: u16 = b',' as u16;

pub const MINUS: u16 = b'-' as u16;

pub const DOT: u16 = b'.' as u16;

pub const SLASH: u16 = b'/' as u16;

pub const COLON: u16 = b':' as u16;

pub const SEMICOLON: u16 = b';' as u16;

pub const EQUALS: u16 = b'=' as u16;

pub const LEFT_BRACKET: u16 = b'[' as u16;

pub const BACKSLASH: u16 = b'\\' as u16;

pub const RIGHT_BRACKET: u16 = b']' as u16;

pub const LEFT_BRACE: u16 = b'{' as u16;

pub const RIGHT_BRACE: u16 = b'}' as u16;

// Where a reader ended: the place after what it read, or the first place at which nothing can go on.
pub type Read = Result<usize, usize>;

// How a loop's turn ended: it goes on at a place, or is done.
pub type Turn = ControlFlow<Read, usize>;

// The byte at a place, or 256 at the end.
pub fn look(s: &[u8], at: usize) -> u16
    requires { at ≤ length s.now }
    ensures { (result ≡ byte_at s.now at) × (at < length s.now + result / 256) }
{
    if at < s.len() { s[at] as u16 } else { 256 }
}

pub fn in_range(b: u16, lo: u16, hi: u16) -> bool
    ensures { result ≡ between lo hi b }
{
    if lo <= b { b <= hi } else { false }
}
