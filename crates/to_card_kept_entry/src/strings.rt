// Strings of a JSON text one after the other in a lent buffer, and the values of a parameter of vCardProps as rows of a line's table.
ghost use Rattle.std.specs.Prelude.{◌≡◌, ◌≤◌, ◌<◌, length};
ghost use Rattle.json_strings.specs.Decoded.{text_at};
ghost use Rattle.convert.specs.FromJson.{is_lower_word};
ghost use Rattle.line_table.specs.Table.{table_length};
ghost use Rattle.to_card_kept_entry.specs.strings.Strings.{Puts, BareText, Within, PutsAt, Bounds, RowsIn, AddsValue, AddsFrom, AddsValues, TellsSole, PutsGroup};

use card_table::kept;
use json_access::element_at;
use json_marks::{separator, skip_space};
use json_strings::decode_into;
use line_class::{Class, all_of};
use line_limits::VALUES;
use line_table::put_row;
use output::put_text;
use std::ops::ControlFlow;
use text::{LEFT_BRACKET, RIGHT_BRACKET, look};
use to_card_value::string_in;

// Where what is in the buffer ends, and how many rows the table has.
#[derive(Clone, Copy)]
pub struct Rows {
    pub end: usize,
    pub count: usize,
}

// A name in lower case.
pub fn is_word(w: &[u8]) -> bool
    ensures { result ≡ is_lower_word w.now }
{
    if w.len() == 0 {
        return false;
    }
    all_of(w, Class::LowerName)
}

// The closing quote of a string whose bytes all stand for themselves; the text's length where it has an escape or is no string.
fn bare_end(s: &[u8], at: usize) -> usize
    ensures { result < length s.now → BareText s.now at result }
{
    let e = text_words::bare_end(s, at);
    if e >= s.len() {
        return s.len();
    }
    if s[e] == b'"' {
        return e;
    }
    s.len()
}

// The string whose first quote stands just before a place, after the first n bytes of the buffer: decoded byte by byte. It gives where the buffer's
// bytes then end.
fn put_escaped(b: &mut [u8], n: usize, s: &[u8], at: usize) -> Option<usize>
    requires { n ≤ length b.old }
    ensures { Puts b.old n (text_at s.now at) result b.new }
{
    let Ok(k) = decode_into(&mut b[n..], s, at) else {
        return None;
    };
    Some(n + k)
}

// The same; most strings have no escape, and are copied as they are.
pub fn put_decoded(b: &mut [u8], n: usize, s: &[u8], at: usize) -> Option<usize>
    requires { n ≤ length b.old }
    ensures { Puts b.old n (text_at s.now at) result b.new }
{
    let e = bare_end(s, at);
    if e >= s.len() {
        return put_escaped(b, n, s, at);
    }
    let Ok(k) = put_text(&mut b[n..], &s[at..e]) else {
        return None;
    };
    Some(n + k)
}

// The value at a place, where it is a string.
pub fn put_string(b: &mut [u8], n: usize, s: &[u8], at: usize) -> Option<usize>
    requires { n ≤ length b.old }
    ensures b_len_unchanged { length b.new ≡ length b.old }
    ensures within { Within n (length b.old) result }
    ensures puts_at { PutsAt b.old n s.now at result b.new }
{
    let q = string_in(s, at);
    if q == 0 {
        return None;
    }
    put_decoded(b, n, s, q)
}

// One value of the parameter whose name stands from a to e in the buffer.
pub fn put_value(
    b: &mut [u8],
    n: usize,
    t: &mut [usize],
    m: usize,
    a: usize,
    e: usize,
    s: &[u8],
    at: usize,
) -> Option<Rows>
    requires n_in_bounds { n ≤ length b.old }
    requires table_length_in_bounds { table_length ≤ length t.old }
    ensures bounds { Bounds b.old b.new t.old t.new }
    ensures rows_in { RowsIn n (length b.old) result }
    ensures adds_value { AddsValue b.old n t.old m a e s.now at result b.new t.new }
{
    if m >= VALUES {
        return None;
    }
    let k = put_string(b, n, s, at)?;
    let rows = put_row(t, m, a, e, n, k);
    Some(Rows {
        end: k,
        count: rows,
    })
}

// The elements of an array from a place on, each a value of that parameter.
fn put_elements(
    b: &mut [u8],
    n: usize,
    t: &mut [usize],
    m: usize,
    a: usize,
    e: usize,
    s: &[u8],
    at: usize,
) -> Option<Rows>
    requires n_in_bounds { n ≤ length b.old }
    requires table_length_in_bounds { table_length ≤ length t.old }
    requires at_in_bounds { at ≤ length s.now }
    ensures bounds { Bounds b.old b.new t.old t.new }
    ensures rows_in { RowsIn n (length b.old) result }
    ensures adds_from { AddsFrom b.old n t.old m a e s.now at result b.new t.new }
{
    let mut i = at;
    let mut k = n;
    let mut rows = m;
    loop {
        let p = element_at(s, i, kept::VALUES_DEPTH);
        let v = p.start;
        let x = p.end;
        let added = put_value(b, k, t, rows, a, e, s, v)?;
        k = added.end;
        rows = added.count;
        match separator(s, x, RIGHT_BRACKET) {
            ControlFlow::Continue(j) => {
                i = j;
            }
            ControlFlow::Break(r) => {
                return Some(Rows {
                    end: k,
                    count: rows,
                });
            }
        }
    }
}

// The values of a parameter: a string, or an array of strings that is not empty.
pub fn put_values(
    b: &mut [u8],
    n: usize,
    t: &mut [usize],
    m: usize,
    a: usize,
    e: usize,
    s: &[u8],
    at: usize,
) -> Option<Rows>
    requires n_in_bounds { n ≤ length b.old }
    requires table_length_in_bounds { table_length ≤ length t.old }
    requires at_in_bounds { at ≤ length s.now }
    ensures bounds { Bounds b.old b.new t.old t.new }
    ensures rows_in { RowsIn n (length b.old) result }
    ensures adds_values { AddsValues b.old n t.old m a e s.now at result b.new t.new }
{
    let i = skip_space(s, at);
    if look(s, i) != LEFT_BRACKET {
        return put_value(b, n, t, m, a, e, s, at);
    }
    let j = skip_space(s, i + 1);
    if look(s, j) == RIGHT_BRACKET {
        return None;
    }
    put_elements(b, n, t, m, a, e, s, j)
}

// The place of the one string that a value is, or that an array holds; 0 where there is no such string.
fn sole_string(s: &[u8], at: usize) -> usize
    requires { at ≤ length s.now }
    ensures { TellsSole s.now at result }
{
    let i = skip_space(s, at);
    if look(s, i) != LEFT_BRACKET {
        return string_in(s, at);
    }
    let j = skip_space(s, i + 1);
    if look(s, j) == RIGHT_BRACKET {
        return 0;
    }
    let p = element_at(s, j, kept::VALUES_DEPTH);
    let v = p.start;
    let x = p.end;
    match separator(s, x, RIGHT_BRACKET) {
        ControlFlow::Continue(k) => {
            return 0;
        }
        ControlFlow::Break(r) => {
            return string_in(s, v);
        }
    }
}

// The group of a kept line.
pub fn put_group(b: &mut [u8], n: usize, s: &[u8], at: usize) -> Option<usize>
    requires n_in_bounds { n ≤ length b.old }
    requires at_in_bounds { at ≤ length s.now }
    ensures b_len_unchanged { length b.new ≡ length b.old }
    ensures within { Within n (length b.old) result }
    ensures puts_group { PutsGroup b.old n s.now at result b.new }
{
    let q = sole_string(s, at);
    if q == 0 {
        return None;
    }
    let k = put_decoded(b, n, s, q)?;
    if !is_word(&b[n..k]) {
        return None;
    }
    Some(k)
}
