// The contexts, features and pref of an entry: judged (12), and written as the parameters TYPE and PREF.
// Contexts and features are marks in a row of nine, one for each place of the table of TYPE: 1 where the entry has it.
#![tactic(auto)]

ghost use Rattle.std.specs.Prelude.{◌≡◌, false, ◌≤◌, ◌+◌, length};
ghost use Rattle.text.specs.Bytes.{code, parts};
ghost use Rattle.line_pen.specs.Pen.{Pens};
ghost use Rattle.card_table.specs.Numbers.{type_count};
ghost use Rattle.to_card_params.specs.Params.{code_of, TellsFlags, TellsPref, span_of, pref_piece, type_lead, type_part, types_from};

use card_table::{entry, params, types};
use convert_tests::is_pref;
use json_access::{Kind, element_at, kind_at};
use json_index::{nth_name, which_name};
use json_skip::skip_value;
use json_walk::{Member, first_member, next_member};
use line_pen::{Pen, pen_bytes};
use to_card_pen::NoCard;

// The number's part of the text, empty where there is none.
#[derive(Drop)]
pub struct Pref {
    pub start: usize,
    pub end: usize,
}

// The numbers of the kinds of values that are asked for.
const TRUE: usize = 1;

const NUMBER: usize = 3;

// What a value is, as a number.
fn kind_code(k: Kind) -> usize
    ensures { result ≡ code_of k }
{
    match k {
        Kind::Null => 0,
        Kind::True => TRUE,
        Kind::False => 2,
        Kind::Number => NUMBER,
        Kind::String => 4,
        Kind::Array => 5,
        Kind::Object => 6,
    }
}

// The contexts or features in a slot; their places in the table of TYPE begin at base.
pub fn flags_in(
    row: &mut [u8],
    s: &[u8],
    slot: usize,
    base: usize,
    names: &[u8],
    count: usize,
) -> bool
    requires count_value { count ≡ length (parts (code ",") names.now) }
    requires count_in_bounds { base + count ≤ length row.old }
    ensures row_len_unchanged { length row.new ≡ length row.old }
    ensures tells_flags { TellsFlags s.now slot base names.now row.old result row.new }
{
    if slot == 0 {
        return true;
    }
    let mut m = first_member(s, slot);
    loop {
        match m {
            Member::At { name: q, start: a } => {
                let v = kind_code(kind_at(s, a));
                if v != TRUE {
                    return false;
                }
                // Not names itself: as in skip_value, its place and length go over one by one.
                let k = which_name(s, q, &names[0..]);
                if k >= count {
                    return false;
                }
                let c = base + k;
                row[c] = 1;
                let e = skip_value(s, a);
                m = next_member(s, e);
            }
            Member::End { after: x } => {
                return true;
            }
            Member::NoObject => {
                return false;
            }
        }
    }
}

// The pref in a slot: a number from 1 to 100, as it is spelled.
pub fn pref_in(s: &[u8], slot: usize) -> Result<Pref, NoCard>
    ensures { TellsPref s.now slot result }
{
    if slot == 0 {
        return Ok(Pref { start: 0, end: 0 });
    }
    let v = kind_code(kind_at(s, slot));
    if v != NUMBER {
        return Err(NoCard);
    }
    let p = element_at(s, slot, entry::DEPTH);
    let a = p.start;
    let e = p.end;
    if !is_pref(&s[a..e]) {
        return Err(NoCard);
    }
    Ok(Pref { start: a, end: e })
}

// PREF, where there is one.
pub fn pen_pref(out: &mut [u8], column: usize, s: &[u8], a: usize, e: usize) -> Pen
    ensures { Pens out.old column (pref_piece (span_of s.now a e)) result out.new }
{
    if e > s.len() {
        return Pen {
            bytes: 0,
            column: column,
        };
    }
    if a >= e {
        return Pen {
            bytes: 0,
            column: column,
        };
    }
    let p = pen_bytes(out, column, &params::PREF_LEAD);
    let n = p.bytes;
    let q = pen_bytes(&mut out[n..], p.column, &s[a..e]);
    let t = n + q.bytes;
    let k = q.column;
    Pen {
        bytes: t,
        column: k,
    }
}

// What stands before a value of TYPE.
fn pen_lead(out: &mut [u8], column: usize, begun: bool) -> Pen
    ensures { Pens out.old column (type_lead begun) result out.new }
{
    if begun {
        return pen_bytes(out, column, b",");
    }
    pen_bytes(out, column, &params::TYPE_LEAD)
}

// The value of TYPE at a place of its table, where it is marked.
fn pen_type(out: &mut [u8], column: usize, names: &[u8], c: usize, on: bool, begun: bool) -> Pen
    ensures { Pens out.old column (type_part (parts (code ",") names.now) c on begun) result out.new }
{
    if !on {
        return Pen {
            bytes: 0,
            column: column,
        };
    }
    let h = nth_name(names, c);
    let a = h.start;
    let e = h.end;
    let p = pen_lead(out, column, begun);
    let n = p.bytes;
    let q = pen_bytes(&mut out[n..], p.column, &names[a..e]);
    let t = n + q.bytes;
    let k = q.column;
    Pen {
        bytes: t,
        column: k,
    }
}

// TYPE with all marked values, in the table's order; nothing where none is marked.
pub fn pen_types(out: &mut [u8], column: usize, names: &[u8], row: &[u8]) -> Pen
    requires { type_count ≤ length row.now }
    ensures { Pens out.old column (types_from (parts (code ",") names.now) row.now type_count 0 false) result out.new }
{
    let mut at = 0;
    let mut k = column;
    let mut begun = false;
    for c in 0..types::COUNT {
        let on = row[c] == 1;
        let p = pen_type(&mut out[at..], k, names, c, on, begun);
        at += p.bytes;
        k = p.column;
        begun = begun | on;
    }
    Pen {
        bytes: at,
        column: k,
    }
}
