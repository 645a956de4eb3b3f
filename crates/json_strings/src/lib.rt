// Strings of a JSON text by what they stand for: one decoded byte after the other; compared with given bytes and with each other; put into a lent
// part. A string is given by the place after its first quote; a place past the end stands for nothing.
// Loops count the place by hand: it goes on by what a character takes, or a second one goes on beside it.
#![tactic(auto)]

ghost use Rattle.std.specs.Prelude.{◌≡◌, true, ℕ, ◌+◌, ◌≤◌, ◌<◌, length, take, drop, get_or, [], ◌++◌};
ghost use Rattle.std.proofs.Math.Option.{Option, some};
ghost use Rattle.text.specs.Bytes.{Bytes, between};
ghost use Rattle.text.specs.Choice.{is_some};
ghost use Rattle.json_strings.specs.Decoded.{decoded_at, pair_of, letter_of, LetterIn, lead_of, rest_of, left, byte_of, ByteIn, spells, agree, text_at};
ghost use Rattle.output.specs.Put.{Puts, Sofar};
ghost use Rattle.json_strings.specs.Bare.{BareByte, Copied};

use json_escapes::{Piece, unit_at, within};
use output::Full;
use text::{BACKSLASH, QUOTE, look};

// A character of a string: a byte as it stands there, or a code point; the end; or a surrogate alone (or no string).
#[derive(Drop)]
pub enum Letter {
    Raw { byte: u8, next: usize },
    Code { point: u32, next: usize },
    End,
    Alone,
}

// A decoded byte, and from where the others come: a place, and bytes that are held (the first in the lowest eight bits).
#[derive(Drop)]
pub enum Byte {
    One { byte: u8, next: usize, held: u32 },
    End,
    Alone,
}

// After the high surrogate `high`: the low one, and the code point of both.
fn pair_at(s: &[u8], high: u32, at: usize) -> Letter
    requires at_in_bounds { at ≤ length s.now }
    requires high_value { between 0xd800 0xdbff high ≡ true }
    ensures { (pair_of high s.now at ≡ letter_of s.now result) × LetterIn at (length s.now) result }
{
    match unit_at(s, at) {
        Piece::Wrong(b) => Letter::Alone,
        Piece::End(e) => Letter::Alone,
        Piece::Of { unit: u, next: e } => {
            if u < 256 {
                return Letter::Alone;
            }
            let low = u - 256;
            if within(low, 0xdc00, 0xdfff) {
                return Letter::Code {
                    point: 0x10000 + (high - 0xd800) * 0x400 + (low - 0xdc00),
                    next: e,
                };
            }
            Letter::Alone
        }
    }
}

// The character at a place of a string.
fn letter_at(s: &[u8], at: usize) -> Letter
    requires { at ≤ length s.now }
    ensures { (decoded_at s.now at ≡ letter_of s.now result) × LetterIn at (length s.now) result }
{
    match unit_at(s, at) {
        Piece::Wrong(b) => Letter::Alone,
        Piece::End(e) => Letter::End,
        Piece::Of { unit: u, next: e } => {
            if u < 256 {
                return Letter::Raw {
                    byte: u as u8,
                    next: e,
                };
            }
            let v = u - 256;
            if within(v, 0xd800, 0xdbff) {
                return pair_at(s, v, e);
            }
            if within(v, 0xdc00, 0xdfff) {
                return Letter::Alone;
            }
            Letter::Code { point: v, next: e }
        }
    }
}

// The first byte of a code point's UTF-8.
fn lead_of(v: u32) -> u8
    requires { v < 0x110000 }
    ensures { result ≡ lead_of v }
{
    if v < 0x80 {
        return v as u8;
    }
    if v < 0x800 {
        return (0xc0 + v / 64) as u8;
    }
    if v < 0x10000 {
        return (0xe0 + v / 4096) as u8;
    }
    (0xf0 + v / 262144) as u8
}

// The other bytes of a code point's UTF-8, held in a number.
fn rest_of(v: u32) -> u32
    requires { v < 0x110000 }
    ensures { result ≡ rest_of v }
{
    if v < 0x80 {
        return 0;
    }
    if v < 0x800 {
        return 0x80 + v % 64;
    }
    if v < 0x10000 {
        return 0x80 + v / 64 % 64 + 256 * (0x80 + v % 64);
    }
    0x80 + v / 4096 % 64 + 256 * (0x80 + v / 64 % 64 + 256 * (0x80 + v % 64))
}

// The next decoded byte: one that is held, or the first of the character at a place.
pub fn next_byte(s: &[u8], at: usize, hold: u32) -> Byte
    requires { at ≤ length s.now }
    ensures { (left s.now at hold ≡ byte_of s.now result) × ByteIn s.now at hold result }
{
    if hold != 0 {
        return Byte::One {
            byte: (hold % 256) as u8,
            next: at,
            held: hold / 256,
        };
    }
    match letter_at(s, at) {
        Letter::End => Byte::End,
        Letter::Alone => Byte::Alone,
        Letter::Raw { byte: b, next: e } => Byte::One {
            byte: b,
            next: e,
            held: 0,
        },
        Letter::Code { point: v, next: e } => Byte::One {
            byte: lead_of(v),
            next: e,
            held: rest_of(v),
        },
    }
}

// Past bytes that stand for themselves.
fn bare_end(s: &[u8], at: usize) -> usize
    requires { at ≤ length s.now }
    ensures lower_bound { (at ≤ result) × (result ≤ length s.now) }
    ensures at_value { is_some (decoded_at s.now at) ≡ is_some (decoded_at s.now result) }
{
    text_words::bare_end(s, at)
}

// No surrogate stands alone.
pub fn is_paired(s: &[u8], at: usize) -> bool
    ensures { result ≡ is_some (decoded_at s.now at) }
{
    if at > s.len() {
        return false;
    }
    let mut i = at;
    loop {
        let from = bare_end(s, i);
        match letter_at(s, from) {
            Letter::Alone => {
                return false;
            }
            Letter::End => {
                return true;
            }
            Letter::Raw { byte: b, next: j } => {
                i = j;
            }
            Letter::Code { point: v, next: j } => {
                i = j;
            }
        }
    }
}

// The string stands for these bytes. Bytes that stand for themselves are compared as they are.
pub fn equals(s: &[u8], at: usize, bytes: &[u8]) -> bool
    ensures { result ≡ spells (decoded_at s.now at) bytes.now }
{
    if at > s.len() {
        return false;
    }
    let mut i = at;
    let mut k = 0;
    loop {
        let b = look(s, i);
        if b == BACKSLASH {
            return equals_from(s, i, bytes, k);
        }
        if k == bytes.len() {
            return b == QUOTE;
        }
        if b != bytes[k] as u16 {
            return false;
        }
        if b == QUOTE {
            return false;
        }
        if b < 32 {
            return false;
        }
        k += 1;
        i += 1;
    }
}

// The string stands for these bytes from a place on.
fn equals_from(s: &[u8], at: usize, bytes: &[u8], from: usize) -> bool
    requires at_in_bounds { at ≤ length s.now }
    requires from_in_bounds { from ≤ length bytes.now }
    ensures { result ≡ spells (decoded_at s.now at) (drop from bytes.now) }
{
    let mut i = at;
    let mut h = 0;
    let mut k = from;
    loop {
        match next_byte(s, i, h) {
            Byte::Alone => {
                return false;
            }
            Byte::End => {
                return k == bytes.len();
            }
            Byte::One {
                byte: b,
                next: j,
                held: g,
            } => {
                if k == bytes.len() {
                    return false;
                }
                if bytes[k] != b {
                    return false;
                }
                k += 1;
                i = j;
                h = g;
            }
        }
    }
}

// Nothing is left of a string.
fn ends(s: &[u8], at: usize, hold: u32) -> bool
    requires { at ≤ length s.now }
    ensures { result ≡ agree (some []) (left s.now at hold) }
{
    match next_byte(s, at, hold) {
        Byte::Alone => false,
        Byte::End => true,
        Byte::One {
            byte: b,
            next: j,
            held: g,
        } => false,
    }
}

// Two strings stand for the same bytes.
pub fn same_text(s: &[u8], a: usize, b: usize) -> bool
    ensures { result ≡ agree (decoded_at s.now a) (decoded_at s.now b) }
{
    if a > s.len() {
        return false;
    }
    if b > s.len() {
        return false;
    }
    let mut i = a;
    let mut g = 0;
    let mut j = b;
    let mut h = 0;
    loop {
        match next_byte(s, i, g) {
            Byte::Alone => {
                return false;
            }
            Byte::End => {
                return ends(s, j, h);
            }
            Byte::One {
                byte: x,
                next: k,
                held: u,
            } => match next_byte(s, j, h) {
                Byte::Alone => {
                    return false;
                }
                Byte::End => {
                    return false;
                }
                Byte::One {
                    byte: y,
                    next: l,
                    held: v,
                } => {
                    if x != y {
                        return false;
                    }
                    i = k;
                    g = u;
                    j = l;
                    h = v;
                }
            },
        }
    }
}

// A byte that stands for itself in a string.
fn is_bare(b: u16) -> bool
    ensures { BareByte b result }
{
    !((b == b'"' as u16) | (b == b'\\' as u16) | (b < 32) | (b > 255))
}

// The bytes from a place on that stand for themselves, copied while there is room: how many. Byte by byte.
fn copy_from(out: &mut [u8], s: &[u8], at: usize) -> usize
    requires { at ≤ length s.now }
    ensures { Copied s.now at 0 out.old result out.new }
{
    let mut n = 0;
    loop {
        if n >= out.len() {
            return n;
        }
        let b = look(s, at + n);
        if !is_bare(b) {
            return n;
        }
        out[n] = b as u8;
        n += 1;
    }
}

// Whether sixteen bytes all stand for themselves. No early way out: one test of a vector.
fn are_bare(s: &[u8], at: usize) -> bool
    requires { at + 16 ≤ length s.now }
    ensures { result ≡ true → (k : ℕ) → k < 16 → BareByte (get_or s.now (at + k) 0) true }
{
    let mut all = true;
    for k in 0..16 {
        all = all & is_bare(s[at + k] as u16);
    }
    all
}

// Whether sixteen bytes stand there that all stand for themselves, and there is room for them.
fn has_run(room: usize, s: &[u8], at: usize) -> bool
    ensures { result ≡ true → (16 ≤ room) × (at + 16 ≤ length s.now) × ((k : ℕ) → k < 16 → BareByte (get_or s.now (at + k) 0) true) }
{
    if room < 16 {
        return false;
    }
    if s.len() <= at {
        return false;
    }
    if s.len() - at < 16 {
        return false;
    }
    are_bare(s, at)
}

// Sixteen bytes, after what stands before `to`. There is room: no early way out, so they are copied as a vector.
pub fn copy_sixteen(out: &mut [u8], to: usize, s: &[u8], at: usize)
    requires to_in_bounds { to + 16 ≤ length out.old }
    requires at_in_bounds { at + 16 ≤ length s.now }
    ensures { (room x : Bytes) → Sofar room x to out.old → Sofar room (x ++ take 16 (drop at s.now)) (to + 16) out.new }
{
    let a = text_words::word_at(s, at);
    let b = text_words::word_at(s, at + 8);
    text_words::put_word(out, to, a);
    text_words::put_word(out, to + 8, b);
}

// The bytes from a place on that stand for themselves, copied while there is room: how many. None where bytes are held, which come first.
fn copy_bare(out: &mut [u8], s: &[u8], at: usize, hold: u32) -> usize
    requires { at ≤ length s.now }
    ensures { Copied s.now at hold out.old result out.new }
{
    if hold != 0 {
        return 0;
    }
    let mut n = 0;
    while has_run(out.len() - n, s, at + n) {
        copy_sixteen(out, n, s, at + n);
        n += 16;
    }
    let m = copy_from(&mut out[n..], s, at + n);
    n + m
}

// The decoded bytes of the string whose first quote stands just before a place. Nothing is written where it stands for nothing: a surrogate
// is alone in it, it is no string, or the place is past the end.
pub fn decode_into(out: &mut [u8], s: &[u8], at: usize) -> Result<usize, Full>
    ensures { Puts out.old (text_at s.now at) result out.new }
{
    if !is_paired(s, at) {
        return Ok(0);
    }
    let mut i = at;
    let mut h = 0;
    let mut k = 0;
    loop {
        let n = copy_bare(&mut out[k..], s, i, h);
        k += n;
        i += n;
        match next_byte(s, i, h) {
            Byte::Alone => {
                return Ok(k);
            }
            Byte::End => {
                return Ok(k);
            }
            Byte::One {
                byte: b,
                next: j,
                held: g,
            } => {
                if k >= out.len() {
                    return Err(Full);
                }
                out[k] = b;
                k += 1;
                i = j;
                h = g;
            }
        }
    }
}
