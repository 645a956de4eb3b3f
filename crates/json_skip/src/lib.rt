// Passing over a value of a text that is known to read: by its quotes and brackets, with no look at UTF-8 or grammar and no recursion.
// Where no value is read, the place is of no use, and within the text.
// Loops count the place by hand: it is what they answer, and an iterator over the bytes would have to be turned back into it.
#![tactic(auto)]

ghost use Rattle.std.specs.Prelude.{◌≡◌, false, ◌≤◌, length, drop};
ghost use Rattle.json_skip.specs.Skip.{quoted, opens, shuts, outside, closed, Leaves, Skips};

use json_marks::skip_space;
use json_scan::scalar_end;
use text::{LEFT_BRACE, LEFT_BRACKET, QUOTE, look};
use text_words::soft_end;

// The place after a string, from after its first quote, byte by byte: for names, which are short.
pub fn string_stop(s: &[u8], at: usize) -> usize
    requires { at ≤ length s.now }
    ensures { Leaves s.now at (quoted false (drop at s.now)) result }
{
    let mut i = at;
    while i < s.len() {
        let b = s[i];
        // Most bytes are small letters.
        if b > b'\\' {
            i += 1;
            continue;
        }
        if b == b'"' {
            return i + 1;
        }
        if b == b'\\' {
            if s.len() - i < 2 {
                return s.len();
            }
            i += 2;
            continue;
        }
        i += 1;
    }
    i
}

// The same, eight bytes at a time: for values.
fn value_stop(s: &[u8], at: usize) -> usize
    requires { at ≤ length s.now }
    ensures { Leaves s.now at (quoted false (drop at s.now)) result }
{
    let mut i = at;
    loop {
        let e = soft_end(s, i);
        if e >= s.len() {
            return e;
        }
        if s[e] == b'"' {
            return e + 1;
        }
        // A backslash, and what it escapes.
        if s.len() - e < 2 {
            return s.len();
        }
        i = e + 2;
    }
}

fn is_opening(b: u8) -> bool
    ensures { result ≡ opens b }
{
    if b == b'[' {
        return true;
    }
    b == b'{'
}

fn is_closing(b: u8) -> bool
    ensures { result ≡ shuts b }
{
    if b == b']' {
        return true;
    }
    b == b'}'
}

// The place after the bracket that closes the one before `at`.
fn bracket_stop(s: &[u8], at: usize) -> usize
    requires { at ≤ length s.now }
    ensures { Leaves s.now at (closed outside 0 (drop at s.now)) result }
{
    let mut i = at;
    // Brackets that were opened since and are not closed.
    let mut open: usize = 0;
    while i < s.len() {
        let b = s[i];
        if b == b'"' {
            i = value_stop(s, i + 1);
            continue;
        }
        // Commas, colons, digits and white space stand below the brackets.
        if b < b'[' {
            i += 1;
            continue;
        }
        if is_opening(b) {
            open += 1;
            i += 1;
            continue;
        }
        if is_closing(b) {
            if open == 0 {
                return i + 1;
            }
            open -= 1;
            i += 1;
            continue;
        }
        i += 1;
    }
    i
}

// The place after white space and a value.
pub fn skip_value(s: &[u8], at: usize) -> usize
    ensures lower_bound { (at ≤ length s.now → at ≤ result) × (result ≤ length s.now) }
    ensures skips { Skips s.now at result }
{
    if at > s.len() {
        return s.len();
    }
    let i = skip_space(s, at);
    let b = look(s, i);
    if b == QUOTE {
        return value_stop(s, i + 1);
    }
    // One call for both, so that it is compiled in place.
    if (b == LEFT_BRACKET) | (b == LEFT_BRACE) {
        return bracket_stop(s, i + 1);
    }
    // A number or a literal: a few bytes, and they end by the grammar (in 1x the value is 1).
    // Not s itself: its place and length then go over one by one, as they were just stored, and not as a pair that waits for both.
    match scalar_end(&s[0..], i) {
        Ok(e) => e,
        Err(x) => x,
    }
}
