// UTF-8, by the rows of RFC 3629.
#![tactic(auto)]

ghost use Rattle.std.specs.Prelude.{◌≡◌, true, false, ◌+◌, ◌≤◌, ◌<◌, length};
ghost use Rattle.text.specs.Utf8.{utf8, lead, tails};
ghost use Rattle.utf8.specs.Due.{due_of};
ghost use Rattle.utf8.specs.Met.{Alike, NextIs, Met, OneMore};

use text::Read;

// What must follow: a character's first byte, or a byte from low to high and so many tails after it; or nothing can.
#[derive(Drop)]
pub enum Due {
    Start,
    Byte(u8, u8, u8),
    Broken,
}

// After a character's first byte.
pub fn due_after(c: u8) -> Due
    ensures { due_of result ≡ lead c }
{
    if c < 0x80 {
        return Due::Start;
    }
    if c < 0xc2 {
        return Due::Broken;
    }
    if c < 0xe0 {
        return Due::Byte(0x80, 0xbf, 0);
    }
    if c < 0xe1 {
        return Due::Byte(0xa0, 0xbf, 1);
    }
    if c < 0xed {
        return Due::Byte(0x80, 0xbf, 1);
    }
    if c < 0xee {
        return Due::Byte(0x80, 0x9f, 1);
    }
    if c < 0xf0 {
        return Due::Byte(0x80, 0xbf, 1);
    }
    if c < 0xf1 {
        return Due::Byte(0x90, 0xbf, 2);
    }
    if c < 0xf4 {
        return Due::Byte(0x80, 0xbf, 2);
    }
    if c < 0xf5 {
        return Due::Byte(0x80, 0x8f, 2);
    }
    Due::Broken
}

// Whether a byte from low to high stands at a place.
fn is_next(s: &[u8], at: usize, low: u8, high: u8) -> bool
    ensures { NextIs s.now at low high result }
{
    if at >= s.len() {
        return false;
    }
    if s[at] < low {
        return false;
    }
    if s[at] > high {
        return false;
    }
    true
}

// So many tails.
fn tails_end(s: &[u8], at: usize, n: u8) -> Read
    requires { at ≤ length s.now }
    ensures { Met (tails n) s.now at result }
{
    let end = at + n as usize;
    for i in at..end {
        if !is_next(s, i, 0x80, 0xbf) {
            return Err(i);
        }
    }
    Ok(end)
}

// The character that begins at a place.
fn character_end(s: &[u8], at: usize) -> Read
    requires { at < length s.now }
    ensures { OneMore s.now at result }
{
    match due_after(s[at]) {
        Due::Start => {
            return Ok(at + 1);
        }
        Due::Byte(low, high, n) => {
            let second = at + 1;
            if !is_next(s, second, low, high) {
                return Err(second);
            }
            return tails_end(s, second + 1, n);
        }
        Due::Broken => {
            return Err(at);
        }
    }
}

// Where the ASCII from `at` on ends, byte by byte. The place is the answer: a `for` is no plainer.
fn ascii_from(s: &[u8], at: usize) -> usize
    requires { at ≤ length s.now }
    ensures { (at ≤ result) × (result ≤ length s.now) × Alike s.now at result }
{
    let mut i = at;
    while i < s.len() {
        if s[i] >= 128 {
            return i;
        }
        i += 1;
    }
    i
}

// Whether one of sixteen bytes is no ASCII. No early way out: one test of a vector.
fn has_wide(s: &[u8], at: usize) -> bool
    requires { at + 16 ≤ length s.now }
    ensures { result ≡ false → Alike s.now at (at + 16) }
{
    let mut found = false;
    for k in 0..16 {
        found |= s[at + k] >= 128;
    }
    found
}

// Whether sixteen bytes stand there, all ASCII.
fn skips(s: &[u8], at: usize) -> bool
    ensures { result ≡ true → (at + 16 ≤ length s.now) × Alike s.now at (at + 16) }
{
    if s.len() <= at {
        return false;
    }
    if s.len() - at < 16 {
        return false;
    }
    !has_wide(s, at)
}

// Where the ASCII from `at` on ends.
fn ascii_end(s: &[u8], at: usize) -> usize
    requires { at ≤ length s.now }
    ensures { (at ≤ result) × (result ≤ length s.now) × Alike s.now at result }
{
    let mut i = at;
    while skips(s, i) {
        i += 16;
    }
    ascii_from(s, i)
}

// Whole characters, each by a row.
pub fn is_utf8(s: &[u8]) -> bool
    ensures { result ≡ utf8 s.now }
{
    let mut i = 0;
    loop {
        let a = ascii_end(s, i);
        if a >= s.len() {
            return true;
        }
        match character_end(s, a) {
            Ok(e) => {
                i = e;
            }
            Err(_) => {
                return false;
            }
        }
    }
}
