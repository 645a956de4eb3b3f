// White space, single bytes and the marks between values.
// Loops count the place by hand: it is what they answer, and an iterator over the bytes would have to be turned back into it.
#![tactic(auto)]

ghost use Rattle.std.specs.Prelude.{◌≡◌, zero, suc, ◌≤◌, ◌<◌, length, drop};
ghost use Rattle.text.specs.Places.{Gives, GivesT, Passes};
ghost use Rattle.text.specs.Reader.{one};
ghost use Rattle.json_text.specs.Grammar.{is_space};
ghost use Rattle.json_text.specs.Syntax.{token, sep};

use std::ops::ControlFlow;
use text::{COMMA, Read, Turn, look};

pub fn is_space(b: u16) -> bool
    ensures { result ≡ is_space b }
{
    if b == 32 {
        return true;
    }
    if b == 9 {
        return true;
    }
    if b == 10 {
        return true;
    }
    b == 13
}

// The place after white space.
pub fn skip_space(s: &[u8], at: usize) -> usize
    requires { at ≤ length s.now }
    ensures { Passes is_space s.now at result }
{
    let mut i = at;
    while is_space(look(s, i)) {
        i += 1;
    }
    i
}

// The byte b.
pub fn byte(s: &[u8], at: usize, b: u16) -> Read
    requires at_in_bounds { at ≤ length s.now }
    requires b_bound { b < 256 }
    ensures { Gives s.now at (one b (drop at s.now)) result }
{
    if look(s, at) == b {
        return Ok(at + 1);
    }
    Err(at)
}

// White space, then the byte b.
pub fn mark(s: &[u8], at: usize, b: u16) -> Read
    requires at_in_bounds { at ≤ length s.now }
    requires b_bound { b < 256 }
    ensures { Gives s.now at (token b (drop at s.now)) result }
{
    byte(s, skip_space(s, at), b)
}

// After a value: the byte that closes, or a comma. (What is read is put into nothing here: the law `sep-any` says that it plays no part.)
pub fn separator(s: &[u8], at: usize, close: u16) -> Turn
    requires at_in_bounds { at ≤ length s.now }
    requires close_bound { close < 256 }
    ensures { GivesT s.now at (sep close zero suc (drop at s.now)) result }
{
    let i = skip_space(s, at);
    let b = look(s, i);
    if b == close {
        return ControlFlow::Break(Ok(i + 1));
    }
    if b == COMMA {
        return ControlFlow::Continue(i + 1);
    }
    ControlFlow::Break(Err(i))
}
