// The first lines of a card from the members of the JSON: BEGIN, VERSION, UID and KIND. A slot is the place of a member's value, 0 where it is absent.
#![tactic(auto)]

ghost use Rattle.std.specs.Prelude.{◌≡◌, length};
ghost use Rattle.json_strings.specs.Decoded.{decoded_at};
ghost use Rattle.line.specs.Class.{is_lower_name};
ghost use Rattle.to_card_lines.specs.Lines.{LinesIn};
ghost use Rattle.to_card_head.specs.Head.{word_of, TellsFilled, TellsSame, FilledIn, WordIn, Starts, PutsHead};

use card_table::{lines, members};
use json_strings::{Byte, equals};
use line_pen::fill;
use to_card_lines::{Lines, Penned, put_string_line};
use to_card_pen::{NoCard, byte_at, style};
use to_card_value::string_in;

// A byte of a name with no upper-case letter.
fn is_lower_name(c: u8) -> bool
    ensures { result ≡ is_lower_name c }
{
    if c > b'z' {
        return false;
    }
    if c >= b'a' {
        return true;
    }
    if c > b'9' {
        return false;
    }
    if c >= b'0' {
        return true;
    }
    c == b'-'
}

// Whether a string is a lower-case word: one or more of these bytes.
fn is_word(s: &[u8], at: usize) -> bool
    ensures { result ≡ word_of (decoded_at s.now at) }
{
    if at > s.len() {
        return false;
    }
    let mut i = at;
    let mut h = 0;
    let mut begun = false;
    loop {
        match byte_at(s, i, h) {
            Byte::Alone => {
                return false;
            }
            Byte::End => {
                return begun;
            }
            Byte::One {
                byte: b,
                next: j,
                held: g,
            } => {
                if !is_lower_name(b) {
                    return false;
                }
                begun = true;
                i = j;
                h = g;
            }
        }
    }
}

// Whether a string has any byte.
pub fn is_filled(s: &[u8], at: usize) -> bool
    ensures { TellsFilled s.now at result }
{
    if at > s.len() {
        return false;
    }
    match byte_at(s, at, 0) {
        Byte::Alone => false,
        Byte::End => false,
        Byte::One {
            byte: b,
            next: j,
            held: g,
        } => true,
    }
}

// Whether a slot holds the string of these bytes.
fn holds(s: &[u8], slot: usize, bytes: &[u8]) -> bool
    ensures { TellsSame s.now slot bytes.now result }
{
    if slot == 0 {
        return false;
    }
    let q = string_in(s, slot);
    if q == 0 {
        return false;
    }
    equals(s, q, bytes)
}

// The place of a string that is not empty; 0 where a slot holds none.
fn filled_in(s: &[u8], slot: usize) -> usize
    ensures { FilledIn s.now slot result }
{
    if slot == 0 {
        return 0;
    }
    let q = string_in(s, slot);
    if q == 0 {
        return 0;
    }
    if !is_filled(s, q) {
        return 0;
    }
    q
}

// The place of a lower-case word; 0 where the value at a place is none.
fn word_in(s: &[u8], slot: usize) -> usize
    ensures { WordIn s.now slot result }
{
    let q = string_in(s, slot);
    if q == 0 {
        return 0;
    }
    if !is_word(s, q) {
        return 0;
    }
    q
}

// BEGIN, VERSION and the UID at a place.
fn put_start(out: &mut [u8], s: &[u8], uid: usize) -> Penned
    ensures { Starts s.now uid out.old result out.new }
{
    let n = fill(out, &lines::START);
    let p = put_string_line(&mut out[n..], &lines::UID, style::RAW, s, uid);
    let m = n + p.bytes;
    let ok = p.carried;
    Penned {
        bytes: m,
        carried: ok,
    }
}

// The lines up to KIND, by the slots of @type, version, uid and kind.
pub fn put_head(
    out: &mut [u8],
    s: &[u8],
    card: usize,
    version: usize,
    uid: usize,
    kind: usize,
) -> Result<Lines, NoCard>
    ensures lines_in { LinesIn (length out.old) result }
    ensures out_len_unchanged { length out.new ≡ length out.old }
    ensures puts_head { PutsHead s.now card version uid kind out.old result out.new }
{
    if !holds(s, card, &members::CARD) {
        return Err(NoCard);
    }
    if !holds(s, version, &members::FIRST_VERSION) {
        return Err(NoCard);
    }
    let u = filled_in(s, uid);
    if u == 0 {
        return Err(NoCard);
    }
    if kind == 0 {
        let p = put_start(out, s, u);
        let n = p.bytes;
        let ok = p.carried;
        return Ok(Lines {
            bytes: n,
            lines: 2,
            carries: ok,
        });
    }
    let k = word_in(s, kind);
    if k == 0 {
        return Err(NoCard);
    }
    let p = put_start(out, s, u);
    let n = p.bytes;
    let ok = p.carried;
    let q = put_string_line(&mut out[n..], &lines::KIND, style::RAW, s, k);
    let m = n + q.bytes;
    Ok(Lines {
        bytes: m,
        lines: 3,
        carries: ok,
    })
}
