// An entry of vCardProps, [name, {parameters}, type, value], as the table of the line that it is.
ghost use Rattle.std.specs.Prelude.{◌≡◌, ◌+◌, ◌≤◌, ◌<◌, length};
ghost use Rattle.to_card_kept_entry.specs.strings.Strings.{Bounds, RowsIn};
ghost use Rattle.line_table.specs.Table.{table_length};
ghost use Rattle.to_card_kept_entry.specs.table.Kept.{PutsParam, StepIn, PutsMember, PutsFrom, PutsObject};

use crate::strings::{Rows, is_word, put_decoded, put_group, put_values};
use card_table::{kept, params};
use json_access::member_at;
use json_marks::{separator, skip_space};
use json_strings::equals;
use std::ops::ControlFlow;
use text::{LEFT_BRACE, RIGHT_BRACE, look};

// What of a line's parameters is in the buffer and the table: where the buffer's bytes end, the rows, the parameters, and the group's place.
#[derive(Clone, Copy)]
pub struct Filled {
    pub end: usize,
    pub rows: usize,
    pub count: usize,
    pub from: usize,
    pub to: usize,
}

// A parameter that is no group.
fn put_param(
    b: &mut [u8],
    n: usize,
    t: &mut [usize],
    m: usize,
    s: &[u8],
    q: usize,
    at: usize,
) -> Option<Rows>
    requires n_in_bounds { n ≤ length b.old }
    requires table_length_in_bounds { table_length ≤ length t.old }
    requires at_in_bounds { at ≤ length s.now }
    ensures bounds { Bounds b.old b.new t.old t.new }
    ensures rows_in { RowsIn n (length b.old) result }
    ensures puts_param { PutsParam b.old n t.old m s.now q at result b.new t.new }
{
    let k = put_decoded(b, n, s, q)?;
    if !is_word(&b[n..k]) {
        return None;
    }
    if equals(s, q, &params::VALUE_NAME) {
        return None;
    }
    put_values(b, k, t, m, n, k, s, at)
}

// A member of the parameters: the group, or a parameter.
fn put_member(
    b: &mut [u8],
    t: &mut [usize],
    f: Filled,
    s: &[u8],
    q: usize,
    at: usize,
) -> Option<Filled>
    requires end_in_bounds { f.end ≤ length b.old }
    requires table_length_in_bounds { table_length ≤ length t.old }
    requires at_in_bounds { at ≤ length s.now }
    requires count_in_bounds { f.count ≤ length s.now }
    requires rows_bound { f.rows ≤ 64 }
    ensures bounds { Bounds b.old b.new t.old t.new }
    ensures step_in { StepIn f.end (length b.old) (f.count + 1) result }
    ensures puts_member { PutsMember b.old t.old f s.now q at result b.new t.new }
{
    let n = f.end;
    let m = f.rows;
    let count = f.count;
    let from = f.from;
    let to = f.to;
    if equals(s, q, &params::GROUP_NAME) {
        if to != 0 {
            return None;
        }
        let k = put_group(b, n, s, at)?;
        return Some(Filled {
            end: k,
            rows: m,
            count: count,
            from: n,
            to: k,
        });
    }
    let p = put_param(b, n, t, m, s, q, at)?;
    Some(Filled {
        end: p.end,
        rows: p.count,
        count: count + 1,
        from: from,
        to: to,
    })
}

// The parameters from a place of their object on.
fn put_from(b: &mut [u8], n: usize, t: &mut [usize], s: &[u8], at: usize) -> Option<Filled>
    requires n_in_bounds { n ≤ length b.old }
    requires table_length_in_bounds { table_length ≤ length t.old }
    requires at_in_bounds { at ≤ length s.now }
    ensures bounds { Bounds b.old b.new t.old t.new }
    ensures step_in { StepIn n (length b.old) (length s.now + 1) result }
    ensures puts_from { PutsFrom b.old n s.now at result b.new t.new }
{
    let mut i = at;
    let mut f = Filled {
        end: n,
        rows: 0,
        count: 0,
        from: 0,
        to: 0,
    };
    loop {
        let m = member_at(s, i, kept::PARAMS_DEPTH);
        let q = m.name;
        let a = m.start;
        let e = m.end;
        let g = put_member(b, t, f, s, q, a)?;
        f = g;
        match separator(s, e, RIGHT_BRACE) {
            ControlFlow::Continue(j) => {
                i = j;
            }
            ControlFlow::Break(r) => {
                return Some(f);
            }
        }
    }
}

// The parameters: an object, perhaps empty.
pub fn put_object(b: &mut [u8], n: usize, t: &mut [usize], s: &[u8], at: usize) -> Option<Filled>
    requires n_in_bounds { n ≤ length b.old }
    requires table_length_in_bounds { table_length ≤ length t.old }
    requires at_in_bounds { at ≤ length s.now }
    ensures bounds { Bounds b.old b.new t.old t.new }
    ensures step_in { StepIn n (length b.old) (length s.now + 1) result }
    ensures puts_object { PutsObject b.old n s.now at result b.new t.new }
{
    let i = skip_space(s, at);
    if look(s, i) != LEFT_BRACE {
        return None;
    }
    let j = skip_space(s, i + 1);
    if look(s, j) == RIGHT_BRACE {
        return Some(Filled {
            end: n,
            rows: 0,
            count: 0,
            from: 0,
            to: 0,
        });
    }
    put_from(b, n, t, s, j)
}
