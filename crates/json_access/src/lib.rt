// The members of an object and the elements of an array of a JSON text, one after the other: after each, `json_marks::separator`
// tells whether another one follows. Where the grammar does not hold, as past the end, the places are of no use, and within the text.
#![tactic(auto)]

ghost use Rattle.std.specs.Prelude.{◌≡◌, ◌≤◌, length};
ghost use Rattle.json_access.specs.Access.{place_of, Inside, TellsHead, TellsMember, TellsElement, TellsKind};

use json_marks::{mark, skip_space};
use json_skip::{skip_value, string_stop};
use text::{COLON, LEFT_BRACE, LEFT_BRACKET, QUOTE, Read, look};

// Letters, as `look` gives them.
const LETTER_F: u16 = b'f' as u16;

const LETTER_N: u16 = b'n' as u16;

const LETTER_T: u16 = b't' as u16;

// A part of a text: from `start` to just before `end`.
#[derive(Drop)]
pub struct Part {
    pub start: usize,
    pub end: usize,
}

// Where a member's name begins, after the first quote, and where its value does.
#[derive(Drop)]
pub struct Head {
    pub name: usize,
    pub start: usize,
}

// The places of a member: of its name, after the first quote, and of its value.
#[derive(Drop)]
pub struct Places {
    pub name: usize,
    pub start: usize,
    pub end: usize,
}

// The place at which a reader ended, whether it read something or not.
pub fn place(r: Read) -> usize
    ensures { result ≡ place_of r }
{
    match r {
        Ok(e) => e,
        Err(b) => b,
    }
}

// The member at a place of an object, up to its value.
pub fn head_at(s: &[u8], at: usize) -> Head
    ensures name_in_bounds { result.name ≤ length s.now }
    ensures at_le_start { (at ≤ length s.now → at ≤ result.start) × (result.start ≤ length s.now) }
    ensures tells_head { TellsHead s.now at result }
{
    if at > s.len() {
        return Head { name: 0, start: 0 };
    }
    let q = place(mark(s, at, QUOTE));
    let z = string_stop(s, q);
    let v = place(mark(s, z, COLON));
    let a = skip_space(s, v);
    Head { name: q, start: a }
}

// The member at a place of an object.
pub fn member_at(s: &[u8], at: usize, depth: usize) -> Places
    ensures name_in_bounds { result.name ≤ length s.now }
    ensures inside { Inside at (length s.now) result.start result.end }
    ensures tells_member { TellsMember depth s.now at result }
{
    let h = head_at(s, at);
    let q = h.name;
    let a = h.start;
    let e = skip_value(s, a);
    Places {
        name: q,
        start: a,
        end: e,
    }
}

// The value of the element at a place of an array.
pub fn element_at(s: &[u8], at: usize, depth: usize) -> Part
    ensures inside { Inside at (length s.now) result.start result.end }
    ensures tells_element { TellsElement depth s.now at result }
{
    if at > s.len() {
        return Part { start: 0, end: 0 };
    }
    let a = skip_space(s, at);
    let e = skip_value(s, a);
    Part { start: a, end: e }
}

// What a value is.
#[derive(Drop)]
pub enum Kind {
    Null,
    True,
    False,
    Number,
    String,
    Array,
    Object,
}

// The kind of the value at a place, by its first byte.
pub fn kind_at(s: &[u8], at: usize) -> Kind
    ensures { TellsKind s.now at result }
{
    if at > s.len() {
        return Kind::Null;
    }
    let i = skip_space(s, at);
    let b = look(s, i);
    if b == LEFT_BRACKET {
        return Kind::Array;
    }
    if b == LEFT_BRACE {
        return Kind::Object;
    }
    if b == QUOTE {
        return Kind::String;
    }
    if b == LETTER_T {
        return Kind::True;
    }
    if b == LETTER_F {
        return Kind::False;
    }
    if b == LETTER_N {
        return Kind::Null;
    }
    Kind::Number
}
