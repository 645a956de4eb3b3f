// TEXT values: reading with their escapes, splitting at bare separators, writing.
#![tactic(auto)]

ghost use Rattle.output.specs.Put.{Puts};
ghost use Rattle.std.specs.Prelude.{◌≡◌, true, false, ◌+◌, ◌≤◌, ◌<◌, length, drop};
ghost use Rattle.text.specs.Choice.{is_some};
ghost use Rattle.line.specs.Text.{read_text, text_from, escape, write_text};
ghost use Rattle.line_text.specs.Read.{OneChar, Plain, plain_text};
ghost use Rattle.line_text.specs.Split.{PartEnds, Joined, char_end};

use output::{Full, put_byte, put_text};

// What stands at a place of a TEXT: a byte and where the next stands, or a bad escape, or nothing more.
#[derive(Drop)]
pub enum Char {
    Byte { byte: u8, next: usize },
    Bad,
    End,
}

// The same just after a backslash.
fn escaped_char(s: &[u8], at: usize) -> Char
    ensures { OneChar (text_from true (drop at s.now)) s.now at result }
{
    if at >= s.len() {
        return Char::Bad;
    }
    let c = s[at];
    let e = at + 1;
    if c == b'\\' {
        return Char::Byte { byte: c, next: e };
    }
    if c == b',' {
        return Char::Byte { byte: c, next: e };
    }
    if c == b';' {
        return Char::Byte { byte: c, next: e };
    }
    if c == b'n' {
        return Char::Byte { byte: 10, next: e };
    }
    if c == b'N' {
        return Char::Byte { byte: 10, next: e };
    }
    Char::Bad
}

pub fn next_char(s: &[u8], at: usize) -> Char
    ensures { OneChar (read_text (drop at s.now)) s.now at result }
{
    if at >= s.len() {
        return Char::End;
    }
    let c = s[at];
    let e = at + 1;
    if c == b'\\' {
        return escaped_char(s, e);
    }
    Char::Byte { byte: c, next: e }
}

// Where the bytes from `at` on that are no backslash end, byte by byte. The place is the answer: a `for` is no plainer.
fn plain_from(s: &[u8], at: usize) -> usize
    requires { at ≤ length s.now }
    ensures { (at ≤ result) × (result ≤ length s.now) × Plain s.now at result }
{
    let mut i = at;
    while i < s.len() {
        let c = s[i];
        if c == b'\\' {
            return i;
        }
        i += 1;
    }
    i
}

// Whether one of sixteen bytes is a backslash. No early way out: one test of a vector.
fn has_backslash(s: &[u8], at: usize) -> bool
    requires { at + 16 ≤ length s.now }
    ensures { result ≡ false → Plain s.now at (at + 16) }
{
    let mut found = false;
    for k in 0..16 {
        found |= s[at + k] == b'\\';
    }
    found
}

// Whether sixteen bytes stand there, none a backslash.
fn skips(s: &[u8], at: usize) -> bool
    ensures { result ≡ true → (at + 16 ≤ length s.now) × Plain s.now at (at + 16) }
{
    if s.len() <= at {
        return false;
    }
    if s.len() - at < 16 {
        return false;
    }
    !has_backslash(s, at)
}

// The first backslash from `at` on, or where the bytes end.
fn plain_end(s: &[u8], at: usize) -> usize
    requires { at ≤ length s.now }
    ensures { (at ≤ result) × (result ≤ length s.now) × Plain s.now at result }
{
    let mut i = at;
    while skips(s, i) {
        i += 16;
    }
    plain_from(s, i)
}

// Whether every escape is good.
pub fn is_text(s: &[u8]) -> bool
    ensures { result ≡ is_some (read_text s.now) }
{
    let mut i = 0;
    loop {
        // Not s itself: its place and length then go over one by one, as they were just stored, and not as a pair that waits for both.
        let j = plain_end(&s[0..], i);
        match next_char(s, j) {
            Char::Byte { next: e, .. } => {
                i = e;
            }
            Char::Bad => {
                return false;
            }
            Char::End => {
                return true;
            }
        }
    }
}

// What the TEXT stands for; nothing where an escape is bad. What stands between escapes is copied as it is.
pub fn read_text(out: &mut [u8], s: &[u8]) -> Result<usize, Full>
    ensures { Puts out.old (plain_text s.now) result out.new }
{
    // What stands before the first escape is looked through once; most values have none.
    let plain = plain_end(s, 0);
    if plain >= s.len() {
        return put_text(out, s);
    }
    if !is_text(&s[plain..]) {
        return Ok(0);
    }
    let mut at = 0;
    let mut i = 0;
    loop {
        let j = plain_end(s, i);
        let n = put_text(&mut out[at..], &s[i..j])?;
        at += n;
        match next_char(s, j) {
            Char::Byte { byte: c, next: e } => {
                if at >= out.len() {
                    return Err(Full);
                }
                out[at] = c;
                at += 1;
                i = e;
            }
            Char::Bad => {
                return Ok(at);
            }
            Char::End => {
                return Ok(at);
            }
        }
    }
}

// Where the byte at i, or the escape that begins there, ends.
fn char_end(s: &[u8], i: usize) -> usize
    requires { i < length s.now }
    ensures { result ≡ char_end s.now i }
{
    let e = i + 1;
    if e >= s.len() {
        return e;
    }
    if s[i] == b'\\' {
        return e + 1;
    }
    e
}

// Where bytes that are neither a backslash nor the separator d end. A loop of its own: no turn waits for what the one before found.
fn joined_end(s: &[u8], at: usize, d: u8) -> usize
    ensures { Joined d s.now at result }
{
    let mut i = at;
    while i < s.len() {
        let c = s[i];
        if (c == b'\\') | (c == d) {
            return i;
        }
        i += 1;
    }
    i
}

// Where the part that begins at `at` ends: at a bare separator d, or at the end.
pub fn part_end(s: &[u8], at: usize, d: u8) -> usize
    ensures { PartEnds d s.now at result }
{
    let mut i = joined_end(s, at, d);
    while i < s.len() {
        let c = s[i];
        if (c != b'\\') & (c == d) {
            return i;
        }
        let e = char_end(s, i);
        i = joined_end(s, e, d);
    }
    i
}
