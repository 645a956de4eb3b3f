// The units of a JSON string: bytes, and what its escapes stand for (the numbers of \uXXXX), with where they end.
#![tactic(auto)]

ghost use Rattle.std.specs.Prelude.{◌≡◌, true, ◌≤◌, ◌<◌, length, drop};
ghost use Rattle.json_text.specs.Grammar.{is_hex, is_short};
ghost use Rattle.json_text.specs.Syntax.{hex_val, hex, hex4, short, escape};
ghost use Rattle.json_escapes.specs.Values.{Tells};
ghost use Rattle.text.specs.Bytes.{between};
ghost use Rattle.json_escapes.specs.Units.{unit, unit_of, UnitIn};

use text::{BACKSLASH, QUOTE, SLASH, in_range, look};

// Letters, as `look` gives them.
const LETTER_B: u16 = b'b' as u16;

const LETTER_F: u16 = b'f' as u16;

const LETTER_N: u16 = b'n' as u16;

const LETTER_R: u16 = b'r' as u16;

const LETTER_T: u16 = b't' as u16;

const LETTER_U: u16 = b'u' as u16;

const ZERO: u16 = b'0' as u16;

const NINE: u16 = b'9' as u16;

const CAPITAL_A: u16 = b'A' as u16;

const CAPITAL_F: u16 = b'F' as u16;

const LETTER_A: u16 = b'a' as u16;

// A number that a part of an escape stands for, and where it ends.
#[derive(Clone, Copy)]
pub struct Value {
    pub number: u32,
    pub next: usize,
}

fn is_hex(b: u16) -> bool
    ensures { result ≡ is_hex b }
{
    if in_range(b, ZERO, NINE) {
        return true;
    }
    if in_range(b, CAPITAL_A, CAPITAL_F) {
        return true;
    }
    in_range(b, LETTER_A, LETTER_F)
}

// A byte that may follow a backslash, besides u.
fn is_short(b: u16) -> bool
    ensures { result ≡ is_short b }
{
    if b == QUOTE {
        return true;
    }
    if b == BACKSLASH {
        return true;
    }
    if b == SLASH {
        return true;
    }
    if b == LETTER_B {
        return true;
    }
    if b == LETTER_F {
        return true;
    }
    if b == LETTER_N {
        return true;
    }
    if b == LETTER_R {
        return true;
    }
    b == LETTER_T
}

fn hex_value(b: u16) -> u32
    requires { is_hex b ≡ true }
    ensures { (result ≡ hex_val b) × (result < 16) }
{
    if in_range(b, ZERO, NINE) {
        return (b - ZERO) as u32;
    }
    if in_range(b, CAPITAL_A, CAPITAL_F) {
        return (b - 55) as u32;
    }
    (b - 87) as u32
}

// The byte that a short escape stands for.
fn short_of(b: u16) -> u32
    requires { b < 256 }
    ensures { (result ≡ short b) × (result < 256) }
{
    if b == LETTER_B {
        return 8;
    }
    if b == LETTER_F {
        return 12;
    }
    if b == LETTER_N {
        return 10;
    }
    if b == LETTER_R {
        return 13;
    }
    if b == LETTER_T {
        return 9;
    }
    b as u32
}

// The number of a hexadecimal digit.
fn digit_at(s: &[u8], at: usize) -> Result<Value, usize>
    requires { at ≤ length s.now }
    ensures { Tells s.now at 16 (hex (drop at s.now)) result }
{
    let b = look(s, at);
    if is_hex(b) {
        return Ok(Value {
            number: hex_value(b),
            next: at + 1,
        });
    }
    Err(at)
}

// The number of four hexadecimal digits.
fn code_at(s: &[u8], at: usize) -> Result<Value, usize>
    requires { at ≤ length s.now }
    ensures { Tells s.now at 65536 (hex4 (drop at s.now)) result }
{
    let a = digit_at(s, at)?;
    let b = digit_at(s, a.next)?;
    let c = digit_at(s, b.next)?;
    let d = digit_at(s, c.next)?;
    Ok(Value {
        number: a.number * 4096 + b.number * 256 + c.number * 16 + d.number,
        next: d.next,
    })
}

// The unit that an escape stands for, from after its backslash.
pub fn escape_at(s: &[u8], at: usize) -> Result<Value, usize>
    requires { at ≤ length s.now }
    ensures { Tells s.now at 65792 (escape (drop at s.now)) result }
{
    let b = look(s, at);
    if b == LETTER_U {
        let v = code_at(s, at + 1)?;
        return Ok(Value {
            number: 256 + v.number,
            next: v.next,
        });
    }
    if is_short(b) {
        return Ok(Value {
            number: short_of(b),
            next: at + 1,
        });
    }
    Err(at)
}

// A unit of a string and where the next one starts: a byte, or 256 + v for \uXXXX; the end of the string; or neither.
#[derive(Drop)]
pub enum Piece {
    Of { unit: u32, next: usize },
    End(usize),
    Wrong(usize),
}

pub fn within(v: u32, lo: u32, hi: u32) -> bool
    ensures { result ≡ between lo hi v }
{
    if lo <= v { v <= hi } else { false }
}

// The unit at a place of a string.
pub fn unit_at(s: &[u8], at: usize) -> Piece
    requires { at ≤ length s.now }
    ensures { (unit (drop at s.now) ≡ unit_of s.now result) × UnitIn at (length s.now) result }
{
    let b = look(s, at);
    if b == QUOTE {
        return Piece::End(at + 1);
    }
    if b == BACKSLASH {
        return match escape_at(s, at + 1) {
            Err(x) => Piece::Wrong(x),
            Ok(v) => Piece::Of {
                unit: v.number,
                next: v.next,
            },
        };
    }
    if in_range(b, 32, 255) {
        return Piece::Of {
            unit: b as u32,
            next: at + 1,
        };
    }
    Piece::Wrong(at)
}
