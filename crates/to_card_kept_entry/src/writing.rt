// A kept line written from its table of places: group, name, parameters and value, folded as they go, as much of it as the room holds.
ghost use Rattle.std.specs.Prelude.{◌≡◌, [], ◌∷◌, ◌++◌, ◌≤◌, ◌<◌, length, get_or};
ghost use Rattle.text.specs.Choice.{pick};
ghost use Rattle.text.specs.Bytes.{ascii, code, flat, uppered};
ghost use Rattle.line.specs.Write.{write_value, write_group, fold_from};
ghost use Rattle.line_pen.specs.Pen.{Fills, Pens};
ghost use Rattle.line_table.specs.Table.{base, name_at, value_at, Sound, table_length};
ghost use Rattle.to_card_pen.specs.Styles.{all_stand_in};
ghost use Rattle.convert.specs.Carry.{carried_raw, carried_param};
ghost use Rattle.to_card_kept_entry.specs.strings.Strings.{follows_by, runs_in};
ghost use Rattle.to_card_kept_entry.specs.writing.Line.{is_pointer, lead_text, row_text, params_text, carried_params, Tells, PutsKept};

use card_table::params;
use line_class::{Class, all_of};
use line_name::{is_named, upper_of};
use line_pen::{Pen, fill, pen_byte, pen_bytes};
use line_table::table;
use to_card_lines::Penned;
use to_card_pen::{Told, can_stand, style};

// A name in capitals.
fn pen_upper(out: &mut [u8], column: usize, name: &[u8]) -> Pen
    ensures { Pens out.old column (uppered name.now) result out.new }
{
    let mut at = 0;
    let mut k = column;
    for i in 0..name.len() {
        let c = upper_of(name[i]);
        let p = pen_byte(&mut out[at..], k, c);
        at += p.bytes;
        k = p.column;
    }
    Pen {
        bytes: at,
        column: k,
    }
}

// Whether each of these bytes can stand in a line in that style.
fn all_stand(style: u8, s: &[u8]) -> bool
    ensures { result ≡ all_stand_in style s.now }
{
    let mut ok = true;
    for i in 0..s.len() {
        ok = ok & can_stand(style, s[i]);
    }
    ok
}

// Bytes as they are, and whether each of them can stand in a line in that style.
fn pen_told(out: &mut [u8], column: usize, style: u8, s: &[u8]) -> Told
    ensures { Tells out.old column s.now (all_stand_in style s.now) result out.new }
{
    let p = pen_bytes(out, column, s);
    let n = p.bytes;
    let k = p.column;
    let ok = all_stand(style, s);
    Told {
        bytes: n,
        column: k,
        carried: ok,
    }
}

// A parameter's value in quotes.
fn pen_quoted(out: &mut [u8], column: usize, v: &[u8]) -> Told
    ensures { Tells out.old column (flat (ascii "\"" ∷ v.now ∷ ascii "\"" ∷ [])) (carried_param v.now) result out.new }
{
    let p = pen_byte(out, column, b'"');
    let n1 = p.bytes;
    let q = pen_told(&mut out[n1..], p.column, style::PARAM, v);
    let n2 = n1 + q.bytes;
    let z = pen_byte(&mut out[n2..], q.column, b'"');
    let n3 = n2 + z.bytes;
    let k = z.column;
    let ok = q.carried;
    Told {
        bytes: n3,
        column: k,
        carried: ok,
    }
}

// A parameter's value: in quotes where it is not bare, and always where `quoted` says so.
fn pen_value(out: &mut [u8], column: usize, quoted: bool, v: &[u8]) -> Told
    ensures { Tells out.old column (write_value quoted v.now []) (carried_param v.now) result out.new }
{
    if quoted {
        return pen_quoted(out, column, v);
    }
    if !all_of(v, Class::Bare) {
        return pen_quoted(out, column, v);
    }
    pen_told(out, column, style::PARAM, v)
}

// What stands before a value: a comma, or `;NAME=` where a parameter begins.
fn pen_lead(out: &mut [u8], column: usize, more: bool, name: &[u8]) -> Pen
    ensures { Pens out.old column (lead_text more name.now) result out.new }
{
    if more {
        return pen_byte(out, column, b',');
    }
    let p = pen_byte(out, column, b';');
    let n1 = p.bytes;
    let q = pen_upper(&mut out[n1..], p.column, name);
    let n2 = n1 + q.bytes;
    let z = pen_byte(&mut out[n2..], q.column, b'=');
    let n3 = n2 + z.bytes;
    let k = z.column;
    Pen {
        bytes: n3,
        column: k,
    }
}

// Whether the row i is one more value of the parameter of the row before it.
fn is_more(t: &[usize], i: usize) -> bool
    requires { (table_length ≤ length t.now) × (i < 64) }
    ensures { result ≡ follows_by t.now i (get_or t.now (base i) 0) }
{
    if i == 0 {
        return false;
    }
    let j = table::ROW * i + table::ROW_BEFORE;
    let k = table::ROW * i + table::ROWS;
    t[j] == t[k]
}

// Whether the values of row i's parameter are always quoted: as before within one parameter, else by its name.
fn is_quoted(b: &[u8], t: &[usize], i: usize, more: bool, last: bool) -> bool
    requires { Sound b.now t.now × (i < get_or t.now 6 0) }
    ensures { result ≡ pick more last (is_pointer (name_at b.now t.now i)) }
{
    if more {
        return last;
    }
    let k = table::ROW * i + table::ROWS;
    let a = t[k];
    let e = t[k + table::ROW_NAME_END];
    is_named(&b[a..e], &params::JSPTR_NAME)
}

// The row i: what stands before its value, and the value.
fn pen_row(
    out: &mut [u8],
    column: usize,
    b: &[u8],
    t: &[usize],
    i: usize,
    more: bool,
    quoted: bool,
) -> Told
    requires { Sound b.now t.now × (i < get_or t.now 6 0) }
    ensures { Tells out.old column (row_text more (name_at b.now t.now i) quoted (value_at b.now t.now i)) (carried_param (value_at b.now t.now i)) result out.new }
{
    let k = table::ROW * i + table::ROWS;
    let a = t[k];
    let e = t[k + table::ROW_NAME_END];
    let c = t[k + table::ROW_VALUE];
    let d = t[k + table::ROW_VALUE_END];
    let p = pen_lead(out, column, more, &b[a..e]);
    let n1 = p.bytes;
    let q = pen_value(&mut out[n1..], p.column, quoted, &b[c..d]);
    let n2 = n1 + q.bytes;
    let x = q.column;
    let ok = q.carried;
    Told {
        bytes: n2,
        column: x,
        carried: ok,
    }
}

// All parameters, row by row.
fn pen_params(out: &mut [u8], column: usize, b: &[u8], t: &[usize]) -> Told
    requires { Sound b.now t.now }
    ensures { Tells out.old column (params_text (runs_in b.now t.now (get_or t.now 6 0))) (carried_params (runs_in b.now t.now (get_or t.now 6 0))) result out.new }
{
    let n = t[table::COUNT];
    let mut at = 0;
    let mut k = column;
    let mut ok = true;
    let mut quoted = false;
    for i in 0..n {
        let more = is_more(t, i);
        quoted = is_quoted(b, t, i, more, quoted);
        let p = pen_row(&mut out[at..], k, b, t, i, more, quoted);
        at += p.bytes;
        k = p.column;
        ok = ok & p.carried;
    }
    Told {
        bytes: at,
        column: k,
        carried: ok,
    }
}

// The group with its dot, where there is one, and the name.
fn pen_head(out: &mut [u8], group: &[u8], name: &[u8]) -> Pen
    ensures { Pens out.old 0 (write_group group.now (uppered name.now)) result out.new }
{
    if group.len() == 0 {
        return pen_upper(out, 0, name);
    }
    let p = pen_bytes(out, 0, group);
    let n1 = p.bytes;
    let q = pen_byte(&mut out[n1..], p.column, b'.');
    let n2 = n1 + q.bytes;
    let z = pen_upper(&mut out[n2..], q.column, name);
    let n3 = n2 + z.bytes;
    let k = z.column;
    Pen {
        bytes: n3,
        column: k,
    }
}

// The colon, the value as it is, and the line's end.
fn pen_end(out: &mut [u8], column: usize, v: &[u8]) -> Penned
    ensures { Fills out.old (fold_from column (code ":" ∷ v.now) ++ (13 ∷ 10 ∷ [])) result.bytes out.new × (result.carried ≡ carried_raw v.now) }
{
    let p = pen_byte(out, column, b':');
    let n1 = p.bytes;
    let q = pen_told(&mut out[n1..], p.column, style::RAW, v);
    let n2 = n1 + q.bytes;
    let z = fill(&mut out[n2..], b"\r\n");
    let n3 = n2 + z;
    let ok = q.carried;
    Penned {
        bytes: n3,
        carried: ok,
    }
}

// The line of a table over the bytes b, its end included, and whether a line can carry its strings.
pub fn put_kept_line(out: &mut [u8], b: &[u8], t: &[usize]) -> Penned
    requires { Sound b.now t.now }
    ensures bytes_in_bounds { result.bytes ≤ length out.old }
    ensures out_len_unchanged { length out.new ≡ length out.old }
    ensures puts_kept { PutsKept b.now t.now out.old result out.new }
{
    let a = t[table::GROUP];
    let e = t[table::GROUP_END];
    let c = t[table::NAME];
    let d = t[table::NAME_END];
    let p = pen_head(out, &b[a..e], &b[c..d]);
    let n1 = p.bytes;
    let q = pen_params(&mut out[n1..], p.column, b, t);
    let n2 = n1 + q.bytes;
    let v = t[table::VALUE];
    let w = t[table::VALUE_END];
    let z = pen_end(&mut out[n2..], q.column, &b[v..w]);
    let n3 = n2 + z.bytes;
    let ok = q.carried & z.carried;
    Penned {
        bytes: n3,
        carried: ok,
    }
}
