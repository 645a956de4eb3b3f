// The JSON grammar by place: where a value ends, or the first byte that does not fit.
#![tactic(auto)]

ghost use Rattle.std.specs.Prelude.{◌≤◌, ◌<◌, length, drop};
ghost use Rattle.text.specs.Reader.{loop};
ghost use Rattle.text.specs.Places.{Gives};
ghost use Rattle.json_text.specs.Tree.{jnull};
ghost use Rattle.json_text.specs.Syntax.{four, scalar, name, item, elements, pair, pairs, value};
ghost use Rattle.json_scan.specs.After.{elements_after, members_after, GivesAfterName};

use json_chars::string_end;
use json_marks::{byte, mark, separator, skip_space};
use json_numbers::number_end;
use std::ops::ControlFlow;
use text::{COLON, LEFT_BRACE, LEFT_BRACKET, QUOTE, RIGHT_BRACE, RIGHT_BRACKET, Read, look};

// Letters, as `look` gives them.
const LETTER_A: u16 = b'a' as u16;

const LETTER_E: u16 = b'e' as u16;

const LETTER_F: u16 = b'f' as u16;

const LETTER_L: u16 = b'l' as u16;

const LETTER_N: u16 = b'n' as u16;

const LETTER_R: u16 = b'r' as u16;

const LETTER_S: u16 = b's' as u16;

const LETTER_T: u16 = b't' as u16;

const LETTER_U: u16 = b'u' as u16;

// Four bytes. (The value that they spell plays no part in where they end.)
fn four_end(s: &[u8], at: usize, a: u16, b: u16, c: u16, d: u16) -> Read
    requires at_in_bounds { at ≤ length s.now }
    requires a_bound { (a < 256) × ((b < 256) × ((c < 256) × (d < 256))) }
    ensures { Gives s.now at (four a b c d jnull (drop at s.now)) result }
{
    let k = byte(s, at, a)?;
    let j = byte(s, k, b)?;
    let i = byte(s, j, c)?;
    byte(s, i, d)
}

// A string, a literal or a number.
pub fn scalar_end(s: &[u8], at: usize) -> Read
    requires { at ≤ length s.now }
    ensures { Gives s.now at (scalar (drop at s.now)) result }
{
    let b = look(s, at);
    if b == QUOTE {
        return string_end(s, at + 1);
    }
    if b == LETTER_T {
        return four_end(s, at, LETTER_T, LETTER_R, LETTER_U, LETTER_E);
    }
    if b == LETTER_F {
        return four_end(s, at + 1, LETTER_A, LETTER_L, LETTER_S, LETTER_E);
    }
    if b == LETTER_N {
        return four_end(s, at, LETTER_N, LETTER_U, LETTER_L, LETTER_L);
    }
    number_end(s, at)
}

// A member's name, with the colon.
fn name_end(s: &[u8], at: usize) -> Read
    requires { at ≤ length s.now }
    ensures { Gives s.now at (name (drop at s.now)) result }
{
    let j = mark(s, at, QUOTE)?;
    let i = string_end(s, j)?;
    mark(s, i, COLON)
}

// Elements of an array, one at least, and the byte that closes it. (One function for these and for members is no plainer: before a member's value a name
// is read, and what each promises is said by a reader of its own.)
#[cycle(array_end_elements_from_members_from_object_end_value_end)]
fn elements_from(s: &[u8], at: usize, depth: usize) -> Read
    requires { at ≤ length s.now }
    ensures { Gives s.now at (loop (item (value depth)) (drop at s.now)) result }
{
    let mut i = at;
    loop {
        let e = value_end(s, i, depth)?;
        match separator(s, e, RIGHT_BRACKET) {
            ControlFlow::Continue(j) => {
                i = j;
            }
            ControlFlow::Break(r) => {
                return r;
            }
        }
    }
}

// The elements of an array, from after the byte that opens it.
#[cycle(array_end_elements_from_members_from_object_end_value_end)]
fn array_end(s: &[u8], at: usize, depth: usize) -> Read
    requires { at ≤ length s.now }
    ensures { Gives s.now at (elements (value depth) (drop at s.now)) result }
{
    let from = skip_space(s, at);
    if look(s, from) == RIGHT_BRACKET {
        return Ok(from + 1);
    }
    elements_from(s, from, depth)
}

// Members of an object, one at least, and the byte that closes it.
#[cycle(array_end_elements_from_members_from_object_end_value_end)]
fn members_from(s: &[u8], at: usize, depth: usize) -> Read
    requires { at ≤ length s.now }
    ensures { Gives s.now at (loop (pair (value depth)) (drop at s.now)) result }
{
    let mut i = at;
    loop {
        let v = name_end(s, i)?;
        let e = value_end(s, v, depth)?;
        match separator(s, e, RIGHT_BRACE) {
            ControlFlow::Continue(j) => {
                i = j;
            }
            ControlFlow::Break(r) => {
                return r;
            }
        }
    }
}

// The members of an object, from after the byte that opens it.
#[cycle(array_end_elements_from_members_from_object_end_value_end)]
fn object_end(s: &[u8], at: usize, depth: usize) -> Read
    requires { at ≤ length s.now }
    ensures { Gives s.now at (pairs (value depth) (drop at s.now)) result }
{
    let from = skip_space(s, at);
    if look(s, from) == RIGHT_BRACE {
        return Ok(from + 1);
    }
    members_from(s, from, depth)
}

// White space and a value, with `depth` arrays and objects at most around what is inside it.
#[cycle(array_end_elements_from_members_from_object_end_value_end)]
fn value_end(s: &[u8], at: usize, depth: usize) -> Read
    requires { at ≤ length s.now }
    ensures { Gives s.now at (value depth (drop at s.now)) result }
{
    let i = skip_space(s, at);
    if depth == 0 {
        return scalar_end(s, i);
    }
    let b = look(s, i);
    if b == LEFT_BRACKET {
        return array_end(s, i + 1, depth - 1);
    }
    if b == LEFT_BRACE {
        return object_end(s, i + 1, depth - 1);
    }
    scalar_end(s, i)
}

// The rest of an array, from just after an element.
pub fn elements_after(s: &[u8], at: usize, depth: usize) -> Read
    requires { at ≤ length s.now }
    ensures { Gives s.now at (elements_after (value depth) (drop at s.now)) result }
{
    match separator(s, at, RIGHT_BRACKET) {
        ControlFlow::Break(r) => r,
        ControlFlow::Continue(j) => elements_from(s, j, depth),
    }
}

// The rest of an object, from just after a member.
pub fn members_after(s: &[u8], at: usize, depth: usize) -> Read
    requires { at ≤ length s.now }
    ensures { Gives s.now at (members_after (value depth) (drop at s.now)) result }
{
    match separator(s, at, RIGHT_BRACE) {
        ControlFlow::Break(r) => r,
        ControlFlow::Continue(j) => members_from(s, j, depth),
    }
}

// The rest of an object, from just after a member's name with its colon.
pub fn members_after_name(s: &[u8], at: usize, depth: usize) -> Read
    requires { at ≤ length s.now }
    ensures { GivesAfterName s.now at depth result }
{
    let e = value_end(s, at, depth)?;
    members_after(s, e, depth)
}
