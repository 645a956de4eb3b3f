// Top-level members that no other line of a card says, each as a JSPROP line: a pointer to the member, and its value as compact JSON in TEXT.
#![tactic(auto)]

ghost use Rattle.std.specs.Prelude.{◌≡◌, [], ◌∷◌, ◌-◌, ◌≤◌, length, take, drop, false};
ghost use Rattle.line.specs.Text.{write_text};
ghost use Rattle.json_compact.specs.Squeezed.{squeezed};
ghost use Rattle.line_pen.specs.Pen.{Fills, Pens};
ghost use Rattle.convert.specs.Pointer.{pointer};
ghost use Rattle.to_card_lines.specs.Lines.{LinesIn};
ghost use Rattle.to_card_members.specs.Members.{Points, MemberLine, OneIn, PutsOther, PutsFrom, PutsMembers};

use card_table::{lines, members};
use json_access::member_at;
use json_compact::put_compact;
use json_index::which_name;
use json_marks::{separator, skip_space};
use json_strings::{Byte, next_byte};
use line_pen::{Pen, fill, pen_byte, pen_bytes};
use output::Full;
use std::ops::ControlFlow;
use text::{LEFT_BRACE, RIGHT_BRACE, look};
use to_card_head::is_filled;
use to_card_lines::{Lines, Penned};
use to_card_pen::{NoCard, Told, can_stand, pen_escape, style};

// One byte of a pointer.
fn pen_pointed(out: &mut [u8], column: usize, c: u8) -> Pen
    ensures { Pens out.old column (pointer (c ∷ [])) result out.new }
{
    if c == b'~' {
        return pen_bytes(out, column, b"~0");
    }
    if c == b'/' {
        return pen_bytes(out, column, b"~1");
    }
    pen_byte(out, column, c)
}

// The pointer to the member whose name is the string at a place.
fn pen_pointer(out: &mut [u8], column: usize, s: &[u8], at: usize) -> Told
    ensures { Points s.now at out.old column result out.new }
{
    if at > s.len() {
        return Told {
            bytes: 0,
            column: column,
            carried: true,
        };
    }
    let mut n = 0;
    let mut k = column;
    let mut ok = true;
    let mut i = at;
    let mut h = 0;
    loop {
        match next_byte(s, i, h) {
            Byte::Alone => {
                return Told {
                    bytes: n,
                    column: k,
                    carried: ok,
                };
            }
            Byte::End => {
                return Told {
                    bytes: n,
                    column: k,
                    carried: ok,
                };
            }
            Byte::One {
                byte: b,
                next: j,
                held: g,
            } => {
                let p = pen_pointed(&mut out[n..], k, b);
                n += p.bytes;
                k = p.column;
                ok = ok & can_stand(style::PARAM, b);
                i = j;
                h = g;
            }
        }
    }
}

// Bytes as TEXT.
fn pen_text(out: &mut [u8], column: usize, s: &[u8]) -> Pen
    ensures { Pens out.old column (write_text false s.now) result out.new }
{
    let mut at = 0;
    let mut k = column;
    for b in s {
        let p = pen_escape(&mut out[at..], k, *b, false);
        at += p.bytes;
        k = p.column;
    }
    Pen {
        bytes: at,
        column: k,
    }
}

// The value that stands from a to e, compactly, as much of it as the buffer holds.
fn put_value(buffer: &mut [u8], s: &[u8], a: usize, e: usize) -> usize
    requires a_le_e { a ≤ e }
    requires e_in_bounds { e ≤ length s.now }
    ensures { Fills buffer.old (squeezed (take (e - a) (drop a s.now))) result buffer.new }
{
    match put_compact(buffer, &s[a..e]) {
        Ok(n) => n,
        Err(Full) => buffer.len(),
    }
}

// The line of a member, by the places of its name and of its value. A value that the buffer does not hold leaves no room in `out` either.
fn put_member(
    out: &mut [u8],
    buffer: &mut [u8],
    s: &[u8],
    name: usize,
    a: usize,
    e: usize,
) -> Penned
    requires a_le_e { a ≤ e }
    requires e_in_bounds { e ≤ length s.now }
    requires out_in_bounds { length out.old ≤ length buffer.old }
    ensures member_line { MemberLine s.now name a e out.old result out.new }
    ensures buffer_len_unchanged { length buffer.new ≡ length buffer.old }
{
    let p = pen_bytes(out, 0, &lines::JSPROP);
    let n1 = p.bytes;
    let q = pen_pointer(&mut out[n1..], p.column, s, name);
    let n2 = n1 + q.bytes;
    let t = pen_bytes(&mut out[n2..], q.column, b"\":");
    let n3 = n2 + t.bytes;
    let m = put_value(buffer, s, a, e);
    let u = pen_text(&mut out[n3..], t.column, &buffer[0..m]);
    let n4 = n3 + u.bytes;
    let z = fill(&mut out[n4..], b"\r\n");
    let n5 = n4 + z;
    let ok = q.carried;
    Penned {
        bytes: n5,
        carried: ok,
    }
}

// A member: no line where another part of the card says it, 12 where its name is empty.
fn put_other(
    out: &mut [u8],
    buffer: &mut [u8],
    s: &[u8],
    name: usize,
    a: usize,
    e: usize,
) -> Result<Lines, NoCard>
    requires a_le_e { a ≤ e }
    requires e_in_bounds { e ≤ length s.now }
    requires out_in_bounds { length out.old ≤ length buffer.old }
    ensures one_in { OneIn (length out.old) result }
    ensures out_len_unchanged { length out.new ≡ length out.old }
    ensures buffer_len_unchanged { length buffer.new ≡ length buffer.old }
    ensures puts_other { PutsOther s.now name a e out.old result out.new }
{
    let k = which_name(s, name, &members::NAMES);
    if k != members::OTHER {
        return Ok(Lines {
            bytes: 0,
            lines: 0,
            carries: true,
        });
    }
    if !is_filled(s, name) {
        return Err(NoCard);
    }
    let p = put_member(out, buffer, s, name, a, e);
    let n = p.bytes;
    let ok = p.carried;
    Ok(Lines {
        bytes: n,
        lines: 1,
        carries: ok,
    })
}

// The members from a place on.
fn put_from(out: &mut [u8], buffer: &mut [u8], s: &[u8], at: usize) -> Result<Lines, NoCard>
    requires at_in_bounds { at ≤ length s.now }
    requires out_in_bounds { length out.old ≤ length buffer.old }
    ensures lines_in { LinesIn (length out.old) result }
    ensures out_len_unchanged { length out.new ≡ length out.old }
    ensures puts_from { PutsFrom s.now at out.old result out.new }
{
    let mut i = at;
    let mut n = 0;
    let mut lines = 0;
    let mut ok = true;
    loop {
        let m = member_at(s, i, members::DEPTH);
        let q = m.name;
        let a = m.start;
        let e = m.end;
        let other = put_other(&mut out[n..], buffer, s, q, a, e)?;
        n += other.bytes;
        lines += other.lines;
        ok = ok & other.carries;
        match separator(s, e, RIGHT_BRACE) {
            ControlFlow::Continue(j) => {
                i = j;
            }
            ControlFlow::Break(r) => {
                return Ok(Lines {
                    bytes: n,
                    lines,
                    carries: ok,
                });
            }
        }
    }
}

// The other members of the JSON text's object as JSPROP lines, in their order. The buffer is as long as the room, for one value at a time.
pub fn put_members(out: &mut [u8], buffer: &mut [u8], s: &[u8]) -> Result<Lines, NoCard>
    requires { length out.old ≤ length buffer.old }
    ensures lines_in { LinesIn (length out.old) result }
    ensures out_len_unchanged { length out.new ≡ length out.old }
    ensures puts_members { PutsMembers s.now out.old result out.new }
{
    let i = skip_space(s, 0);
    if look(s, i) != LEFT_BRACE {
        return Err(NoCard);
    }
    let j = skip_space(s, i + 1);
    if look(s, j) == RIGHT_BRACE {
        return Ok(Lines {
            bytes: 0,
            lines: 0,
            carries: true,
        });
    }
    put_from(out, buffer, s, j)
}
