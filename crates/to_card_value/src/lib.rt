// The strings of an entry as a line's value, in one pass: judged (12), written by the map's form, and told whether a line can carry them (13).
// Forms are numbers (`card_table::forms`), here as bytes.
#![tactic(auto)]

ghost use Rattle.std.specs.Prelude.{◌≡◌, ◌&&◌, ◌≤◌, eqb, length};
ghost use Rattle.json_strings.specs.Decoded.{decoded_at};
ghost use Rattle.to_card_value.specs.Values.{TellsString, TellsText, TellsUnit, blank_of, tel_byte, on_tel, tel_of, Inks, UnitInks, InkIn, UnitsFrom, TellsUnits, TellsName, PutIn, TellsOrg, TellsValue};

use card_table::{entry, links, organizations, phones, unit, values};
use json_access::element_at;
use json_index::index_object;
use json_marks::{separator, skip_space};
use json_strings::Byte;
use line_pen::pen_bytes;
use std::ops::ControlFlow;
use text::{LEFT_BRACKET, QUOTE, RIGHT_BRACKET, look};
use to_card_pen::{NoCard, Told, byte_at, is_control, pen_string, style};

// How many bytes were written, the column after them, whether a line can carry them, and whether any string was filled.
#[derive(Drop)]
pub struct Inked {
    pub bytes: usize,
    pub column: usize,
    pub carried: bool,
    pub filled: bool,
}

// How many bytes of the line were written, and whether a line can carry the strings.
#[derive(Drop)]
pub struct Put {
    pub bytes: usize,
    pub carries: bool,
}

// The place after the first quote, where the value at a place is a string; else 0.
pub fn string_in(s: &[u8], at: usize) -> usize
    ensures { TellsString s.now at result }
{
    if at > s.len() {
        return 0;
    }
    let i = skip_space(s, at);
    if look(s, i) == QUOTE {
        return i + 1;
    }
    0
}

// The same for the value in a slot; 0 also where the slot is empty.
fn text_in(s: &[u8], slot: usize) -> usize
    ensures { TellsText s.now slot result }
{
    if slot == 0 {
        return 0;
    }
    string_in(s, slot)
}

// The name of a unit of an organization: an object with that member alone.
fn unit_in(s: &[u8], at: usize) -> usize
    requires { at ≤ length s.now }
    ensures { TellsUnit s.now at result }
{
    let mut slots = [0usize; unit::SLOTS];
    if !index_object(&mut slots, s, at, unit::DEPTH, &unit::NAMES) {
        return 0;
    }
    if slots[unit::OTHER] != 0 {
        return 0;
    }
    let a = slots[unit::NAME];
    text_in(s, a)
}

// Whether a string is empty.
fn is_blank(s: &[u8], at: usize) -> bool
    ensures { result ≡ blank_of (decoded_at s.now at) }
{
    if at > s.len() {
        return false;
    }
    match byte_at(s, at, 0) {
        Byte::Alone => false,
        Byte::End => true,
        Byte::One {
            byte: b,
            next: j,
            held: g,
        } => false,
    }
}

// The length of `tel:`.
const TEL: usize = 4;

// The byte of `tel:` at a place, and any byte from there on.
fn fits_tel(k: usize, c: u8) -> bool
    ensures { result ≡ tel_byte k c }
{
    if k == 0 {
        return c == b't';
    }
    if k == 1 {
        return c == b'e';
    }
    if k == 2 {
        return c == b'l';
    }
    if k == 3 {
        return c == b':';
    }
    !is_control(c)
}

fn onward(k: usize) -> usize
    ensures { result ≡ on_tel k }
{
    if k < TEL {
        return k + 1;
    }
    TEL
}

// Whether the string of a phone is written raw: it begins `tel:` and has no control but tab.
fn is_tel(form: u8, s: &[u8], at: usize) -> bool
    ensures { result ≡ (eqb form 3 && tel_of (decoded_at s.now at)) }
{
    if form != phones::FORM_BYTE {
        return false;
    }
    if at > s.len() {
        return false;
    }
    let mut i = at;
    let mut h = 0;
    let mut k: usize = 0;
    loop {
        match byte_at(s, i, h) {
            Byte::Alone => {
                return false;
            }
            Byte::End => {
                return k >= TEL;
            }
            Byte::One {
                byte: b,
                next: j,
                held: g,
            } => {
                if !fits_tel(k, b) {
                    return false;
                }
                k = onward(k);
                i = j;
                h = g;
            }
        }
    }
}

// A string in a style, after what leads to it.
fn pen_text(out: &mut [u8], column: usize, lead: &[u8], style: u8, s: &[u8], at: usize) -> Told
    ensures { Inks s.now at lead.now style out.old column result out.new }
{
    let p = pen_bytes(out, column, lead);
    let n = p.bytes;
    let q = pen_string(&mut out[n..], p.column, style, s, at);
    let t = n + q.bytes;
    let k = q.column;
    let ok = q.carried;
    Told {
        bytes: t,
        column: k,
        carried: ok,
    }
}

// A unit with its semicolon; nothing where it is empty.
fn pen_unit(out: &mut [u8], column: usize, s: &[u8], at: usize) -> Inked
    ensures { UnitInks s.now at out.old column result out.new }
{
    if is_blank(s, at) {
        return Inked {
            bytes: 0,
            column: column,
            carried: true,
            filled: false,
        };
    }
    let t = pen_text(out, column, b";", style::PARTS, s, at);
    let n = t.bytes;
    let k = t.column;
    let ok = t.carried;
    Inked {
        bytes: n,
        column: k,
        carried: ok,
        filled: true,
    }
}

// The units from a place of their array on.
fn put_units_from(out: &mut [u8], column: usize, s: &[u8], at: usize) -> Result<Inked, NoCard>
    requires { at ≤ length s.now }
    ensures ink_in { InkIn (length out.old) result }
    ensures out_len_unchanged { length out.new ≡ length out.old }
    ensures units_from { UnitsFrom s.now at out.old column result out.new }
{
    let mut i = at;
    let mut n = 0;
    let mut k = column;
    let mut ok = true;
    let mut filled = false;
    loop {
        let p = element_at(s, i, entry::UNITS_DEPTH);
        let a = p.start;
        let e = p.end;
        let q = unit_in(s, a);
        if q == 0 {
            return Err(NoCard);
        }
        let t = pen_unit(&mut out[n..], k, s, q);
        n += t.bytes;
        k = t.column;
        ok = ok & t.carried;
        filled = filled | t.filled;
        match separator(s, e, RIGHT_BRACKET) {
            ControlFlow::Continue(j) => {
                i = j;
            }
            ControlFlow::Break(r) => {
                return Ok(Inked {
                    bytes: n,
                    column: k,
                    carried: ok,
                    filled: filled,
                });
            }
        }
    }
}

// The units in a slot.
fn put_units(out: &mut [u8], column: usize, s: &[u8], slot: usize) -> Result<Inked, NoCard>
    ensures ink_in { InkIn (length out.old) result }
    ensures out_len_unchanged { length out.new ≡ length out.old }
    ensures tells_units { TellsUnits s.now slot out.old column result out.new }
{
    if slot == 0 {
        return Ok(Inked {
            bytes: 0,
            column: column,
            carried: true,
            filled: false,
        });
    }
    if slot > s.len() {
        return Err(NoCard);
    }
    let i = skip_space(s, slot);
    if look(s, i) != LEFT_BRACKET {
        return Err(NoCard);
    }
    let j = skip_space(s, i + 1);
    if look(s, j) == RIGHT_BRACKET {
        return Ok(Inked {
            bytes: 0,
            column: column,
            carried: true,
            filled: false,
        });
    }
    put_units_from(out, column, s, j)
}

// The colon and the name of an organization, which may be absent.
fn put_name(out: &mut [u8], column: usize, s: &[u8], slot: usize) -> Result<Inked, NoCard>
    ensures ink_in { InkIn (length out.old) result }
    ensures out_len_unchanged { length out.new ≡ length out.old }
    ensures tells_name { TellsName s.now slot out.old column result out.new }
{
    if slot == 0 {
        let p = pen_bytes(out, column, b":");
        let n = p.bytes;
        let k = p.column;
        return Ok(Inked {
            bytes: n,
            column: k,
            carried: true,
            filled: false,
        });
    }
    let q = string_in(s, slot);
    if q == 0 {
        return Err(NoCard);
    }
    let t = pen_text(out, column, b":", style::PARTS, s, q);
    let n = t.bytes;
    let k = t.column;
    let ok = t.carried;
    let blank = is_blank(s, q);
    Ok(Inked {
        bytes: n,
        column: k,
        carried: ok,
        filled: !blank,
    })
}

// An organization: its name, then its units; something must be left of them.
fn put_organization(
    out: &mut [u8],
    column: usize,
    s: &[u8],
    name: usize,
    units: usize,
) -> Result<Put, NoCard>
    ensures put_in { PutIn (length out.old) result }
    ensures out_len_unchanged { length out.new ≡ length out.old }
    ensures tells_org { TellsOrg s.now name units out.old column result out.new }
{
    let begun = put_name(out, column, s, name)?;
    let rest = put_units(&mut out[begun.bytes..], begun.column, s, units)?;
    let any = begun.filled | rest.filled;
    if !any {
        return Err(NoCard);
    }
    let t = begun.bytes + rest.bytes;
    Ok(Put {
        bytes: t,
        carries: begun.carried & rest.carried,
    })
}

// The strings of an entry by its slots, after the line's other parameters: VALUE where it is needed, the colon, and the value.
pub fn put_value(
    out: &mut [u8],
    column: usize,
    s: &[u8],
    content: usize,
    units: usize,
    form: u8,
) -> Result<Put, NoCard>
    ensures put_in { PutIn (length out.old) result }
    ensures out_len_unchanged { length out.new ≡ length out.old }
    ensures tells_value { TellsValue s.now content units form out.old column result out.new }
{
    if form == organizations::FORM_BYTE {
        return put_organization(out, column, s, content, units);
    }
    let q = text_in(s, content);
    if q == 0 {
        return Err(NoCard);
    }
    if is_tel(form, s, q) {
        let t = pen_text(out, column, &values::URI_LEAD, style::RAW, s, q);
        let n = t.bytes;
        let ok = t.carried;
        return Ok(Put {
            bytes: n,
            carries: ok,
        });
    }
    if form == links::FORM_BYTE {
        let t = pen_text(out, column, b":", style::RAW, s, q);
        let n = t.bytes;
        let ok = t.carried;
        return Ok(Put {
            bytes: n,
            carries: ok,
        });
    }
    let t = pen_text(out, column, b":", style::TEXT, s, q);
    let n = t.bytes;
    let ok = t.carried;
    Ok(Put {
        bytes: n,
        carries: ok,
    })
}
