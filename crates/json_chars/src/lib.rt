// Characters and strings of a JSON text, read by place.
// Loops count the place by hand: it is what they answer, and an iterator over the bytes would have to be turned back into it.
#![tactic(auto)]

ghost use Rattle.std.specs.Prelude.{◌≤◌, length, drop};
ghost use Rattle.text.specs.Utf8.{due};
ghost use Rattle.text.specs.Places.{Gives, GivesT};
ghost use Rattle.json_text.specs.Syntax.{tail_bytes, following, character, characters};
ghost use Rattle.json_chars.specs.Strings.{ToEnd, Unmarked};

use json_escapes::escape_at;
use std::ops::ControlFlow;
use text::{BACKSLASH, QUOTE, Read, Turn, in_range, look};
use text_words::raw_end;
use utf8::{Due, due_after};

// So many tails of a character.
fn tails_end(s: &[u8], at: usize, count: u8) -> Read
    requires { at ≤ length s.now }
    ensures { Gives s.now at (tail_bytes count (drop at s.now)) result }
{
    let mut i = at;
    let mut left = count;
    while left > 0 {
        if !in_range(look(s, i), 0x80, 0xbf) {
            return Err(i);
        }
        i += 1;
        left -= 1;
    }
    Ok(i)
}

// What must follow the first byte of a character: a byte from low to high, then so many tails.
fn wide_end(s: &[u8], at: usize, low: u8, high: u8, tails: u8) -> Read
    requires { at ≤ length s.now }
    ensures { Gives s.now at (following (due low high tails) (drop at s.now)) result }
{
    let b = look(s, at);
    if in_range(b, low as u16, high as u16) {
        return tails_end(s, at + 1, tails);
    }
    Err(at)
}

// One character, or the closing quote.
fn next_character(s: &[u8], at: usize) -> Turn
    requires { at ≤ length s.now }
    ensures { GivesT s.now at (character (drop at s.now)) result }
{
    let b = look(s, at);
    if b == QUOTE {
        return ControlFlow::Break(Ok(at + 1));
    }
    if b == BACKSLASH {
        return match escape_at(s, at + 1) {
            Ok(v) => ControlFlow::Continue(v.next),
            Err(x) => ControlFlow::Break(Err(x)),
        };
    }
    if in_range(b, 32, 127) {
        return ControlFlow::Continue(at + 1);
    }
    // The end of the text.
    if b > 255 {
        return ControlFlow::Break(Err(at));
    }
    // By the rows a control is a whole character, but a string has none.
    match due_after(b as u8) {
        Due::Byte(low, high, tails) => match wide_end(s, at + 1, low, high, tails) {
            Ok(e) => ControlFlow::Continue(e),
            Err(x) => ControlFlow::Break(Err(x)),
        },
        Due::Start => ControlFlow::Break(Err(at)),
        Due::Broken => ControlFlow::Break(Err(at)),
    }
}

// Past characters of one byte that stand for themselves, byte by byte: for names, which are short, and for texts that are refused.
fn near_end(s: &[u8], at: usize) -> usize
    requires { at ≤ length s.now }
    ensures lower_bound { (at ≤ result) × (result ≤ length s.now) }
    ensures to_end { ToEnd s.now at result }
    ensures unmarked { Unmarked s.now at result }
{
    let mut i = at;
    loop {
        let b = look(s, i);
        if b > BACKSLASH {
            if b > 127 {
                return i;
            }
            i += 1;
            continue;
        }
        if b == QUOTE {
            return i;
        }
        if b == BACKSLASH {
            return i;
        }
        if b < 32 {
            return i;
        }
        i += 1;
    }
}

// The same, eight bytes at a time: for values.
fn plain_end(s: &[u8], at: usize) -> usize
    requires { at ≤ length s.now }
    ensures lower_bound { (at ≤ result) × (result ≤ length s.now) }
    ensures to_end { ToEnd s.now at result }
    ensures unmarked { Unmarked s.now at result }
{
    raw_end(s, at)
}

// Past characters that stand for themselves, of one byte or of several.
pub fn text_end(s: &[u8], at: usize) -> usize
    requires { at ≤ length s.now }
    ensures lower_bound { (at ≤ result) × (result ≤ length s.now) }
    ensures to_end { ToEnd s.now at result }
    ensures unmarked { Unmarked s.now at result }
{
    let mut i = at;
    loop {
        let from = plain_end(s, i);
        if look(s, from) < 128 {
            return from;
        }
        match next_character(s, from) {
            ControlFlow::Continue(j) => {
                i = j;
            }
            ControlFlow::Break(_) => {
                return from;
            }
        }
    }
}

// A string, from after its first quote.
pub fn string_end(s: &[u8], at: usize) -> Read
    requires { at ≤ length s.now }
    ensures { Gives s.now at (characters (drop at s.now)) result }
{
    let mut i = at;
    loop {
        let from = near_end(s, i);
        match next_character(s, from) {
            ControlFlow::Continue(j) => {
                i = j;
            }
            ControlFlow::Break(r) => {
                return r;
            }
        }
    }
}
