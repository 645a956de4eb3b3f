// An entry of vCardProps, [name, {parameters}, type, value], as the table of the line that it is.
ghost use Rattle.std.specs.Prelude.{◌≡◌, ◌+◌, ◌≤◌, ◌<◌, length};
ghost use Rattle.to_card_kept_entry.specs.strings.Strings.{Within, Bounds, RowsIn};
ghost use Rattle.line_table.specs.Table.{table_length};
ghost use Rattle.to_card_kept_entry.specs.entry.Entry.{PutsWord, PutsName, FourIn, TellsFour, PutsTyped, PutsType, headed_at};

use crate::strings::{Rows, is_word, put_decoded, put_value};
use card_table::{kept, names, params, values};
use json_access::{element_at, place};
use json_index::which_name;
use json_marks::{separator, skip_space};
use json_strings::equals;
use line_limits::PARAMS;
use line_table::table;
use output::put_text;
use std::ops::ControlFlow;
use text::{LEFT_BRACKET, RIGHT_BRACKET, look};
use to_card_value::string_in;

// The places of the four elements, and the place after the array.
#[derive(Clone, Copy)]
pub struct Four {
    pub name: usize,
    pub params: usize,
    pub kind: usize,
    pub value: usize,
    pub end: usize,
}

// A string that is a name in lower case.
fn put_word(b: &mut [u8], n: usize, s: &[u8], q: usize) -> Option<usize>
    requires { n ≤ length b.old }
    ensures b_len_unchanged { length b.new ≡ length b.old }
    ensures within { Within n (length b.old) result }
    ensures puts_word { PutsWord b.old n s.now q result b.new }
{
    let k = put_decoded(b, n, s, q)?;
    if !is_word(&b[n..k]) {
        return None;
    }
    Some(k)
}

// The line's name.
pub fn put_name(b: &mut [u8], n: usize, s: &[u8], at: usize) -> Option<usize>
    requires { n ≤ length b.old }
    ensures b_len_unchanged { length b.new ≡ length b.old }
    ensures within { Within n (length b.old) result }
    ensures puts_name { PutsName b.old n s.now at result b.new }
{
    let q = string_in(s, at);
    if q == 0 {
        return None;
    }
    if which_name(s, q, &names::UNKEPT) != names::UNKEPT_COUNT {
        return None;
    }
    put_word(b, n, s, q)
}

// Four elements, no more and no less.
pub fn four_at(s: &[u8], at: usize) -> Option<Four>
    requires { at ≤ length s.now }
    ensures four_in { FourIn s.now at result }
    ensures tells_four { TellsFour s.now at result }
{
    let i = skip_space(s, at);
    if look(s, i) != LEFT_BRACKET {
        return None;
    }
    let j = skip_space(s, i + 1);
    if look(s, j) == RIGHT_BRACKET {
        return None;
    }
    let p = element_at(s, j, kept::DEPTH);
    let ControlFlow::Continue(j2) = separator(s, p.end, RIGHT_BRACKET) else {
        return None;
    };
    let p2 = element_at(s, j2, kept::DEPTH);
    let ControlFlow::Continue(j3) = separator(s, p2.end, RIGHT_BRACKET) else {
        return None;
    };
    let p3 = element_at(s, j3, kept::DEPTH);
    let ControlFlow::Continue(j4) = separator(s, p3.end, RIGHT_BRACKET) else {
        return None;
    };
    let p4 = element_at(s, j4, kept::DEPTH);
    let ControlFlow::Break(r) = separator(s, p4.end, RIGHT_BRACKET) else {
        return None;
    };
    let end = place(r);
    Some(Four {
        name: p.start,
        params: p2.start,
        kind: p3.start,
        value: p4.start,
        end: end,
    })
}

// VALUE: its name, then the type.
fn put_typed(b: &mut [u8], n: usize, t: &mut [usize], m: usize, s: &[u8], at: usize) -> Option<Rows>
    requires n_in_bounds { n ≤ length b.old }
    requires table_length_in_bounds { table_length ≤ length t.old }
    ensures bounds { Bounds b.old b.new t.old t.new }
    ensures rows_in { RowsIn n (length b.old) result }
    ensures puts_typed { PutsTyped b.old n t.old m s.now at result b.new t.new }
{
    let Ok(k) = put_text(&mut b[n..], &params::VALUE_NAME) else {
        return None;
    };
    let a = n + k;
    let rows = put_value(b, a, t, m, n, a, s, at)?;
    if !is_word(&b[a..rows.end]) {
        return None;
    }
    Some(rows)
}

// The type: a parameter VALUE, none where it is unknown.
pub fn put_type(
    b: &mut [u8],
    n: usize,
    t: &mut [usize],
    m: usize,
    count: usize,
    s: &[u8],
    at: usize,
) -> Option<Rows>
    requires n_in_bounds { n ≤ length b.old }
    requires table_length_in_bounds { table_length ≤ length t.old }
    requires m_bound { m ≤ 64 }
    ensures bounds { Bounds b.old b.new t.old t.new }
    ensures rows_in { RowsIn n (length b.old) result }
    ensures puts_type { PutsType b.old n t.old m count s.now at result b.new t.new }
{
    let q = string_in(s, at);
    if q == 0 {
        return None;
    }
    if equals(s, q, &values::UNKNOWN_NAME) {
        if count > PARAMS {
            return None;
        }
        return Some(Rows { end: n, count: m });
    }
    if count >= PARAMS {
        return None;
    }
    put_typed(b, n, t, m, s, at)
}

// Group, name and value, and how many rows there are.
pub fn put_head(
    t: &mut [usize],
    from: usize,
    to: usize,
    end: usize,
    value: usize,
    stop: usize,
    n: usize,
) -> bool
    requires { table_length ≤ length t.old }
    ensures { t.new ≡ headed_at t.old from to end value stop n }
{
    t[table::GROUP] = from;
    t[table::GROUP_END] = to;
    t[table::NAME] = 0;
    t[table::NAME_END] = end;
    t[table::VALUE] = value;
    t[table::VALUE_END] = stop;
    t[table::COUNT] = n;
    true
}
