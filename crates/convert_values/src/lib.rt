// Lists of TEXT values, split at bare separators: whether one stands for the same as one of a list, by a walk over it or by the prints of its values.
#![tactic(auto)]

ghost use Rattle.std.specs.Prelude.{◌≡◌, true, false, ◌+◌, ◌*◌, ◌≤◌, ◌<◌, ltb, length, drop, take};
ghost use Rattle.text.specs.Choice.{is_some, pick};
ghost use Rattle.text.specs.Bytes.{code, empty, same, among};
ghost use Rattle.line.specs.Text.{read_text};
ghost use Rattle.line_text.specs.Read.{plain_text};
ghost use Rattle.line_text.specs.Split.{PartEnds};
ghost use Rattle.json_prints.specs.Prints.{printed};
ghost use Rattle.convert_values.specs.Values.{texts_of, Readable, NextIs, Noting, Noted, later};

use json_prints::{next_print, stirred};
use line_text::{Char, next_char, part_end};

fn next_if(equal: bool, e: usize) -> usize
    ensures { result ≡ pick equal e 0 }
{
    if equal {
        return e;
    }
    0
}

// The place after the character c, or 0 where another comes next, or none.
fn next_is(s: &[u8], at: usize, c: u8) -> usize
    requires { is_some (read_text (drop at s.now)) ≡ true }
    ensures { NextIs s.now at c result }
{
    match next_char(s, at) {
        Char::Byte { byte: d, next: e } => next_if(c == d, e),
        Char::Bad => 0,
        Char::End => 0,
    }
}

// Whether two TEXTs stand for the same bytes: `\n` and `\N` do.
fn same_text(a: &[u8], b: &[u8]) -> bool
    requires { (is_some (read_text a.now) ≡ true) × (is_some (read_text b.now) ≡ true) }
    ensures { result ≡ same (plain_text a.now) (plain_text b.now) }
{
    let mut i = 0;
    let mut j = 0;
    loop {
        match next_char(a, i) {
            Char::Byte { byte: c, next: e } => {
                let f = next_is(b, j, c);
                if f == 0 {
                    return false;
                }
                i = e;
                j = f;
            }
            Char::Bad => {
                return false;
            }
            Char::End => {
                return j >= b.len();
            }
        }
    }
}

// Whether u is one of the values of o, split at bare commas.
pub fn is_among(u: &[u8], o: &[u8]) -> bool
    requires { (is_some (read_text u.now) ≡ true) × Readable (code ",") o.now }
    ensures { result ≡ among (plain_text u.now) (texts_of (code ",") o.now) }
{
    let mut i = 0;
    loop {
        let e = part_end(o, i, b',');
        if same_text(u, &o[i..e]) {
            return true;
        }
        if e >= o.len() {
            return false;
        }
        i = e + 1;
    }
}

// The print of what a TEXT stands for.
fn print_text(u: &[u8]) -> u16
    requires { is_some (read_text u.now) ≡ true }
    ensures { result ≡ printed 0 (plain_text u.now) }
{
    let mut p = 0;
    let mut i = 0;
    loop {
        match next_char(u, i) {
            Char::Byte { byte: c, next: e } => {
                p = stirred(p, c);
                i = e;
            }
            Char::Bad => {
                return 0;
            }
            Char::End => {
                return p as u16;
            }
        }
    }
}

// One value more, if it is filled: that of o from i to e.
fn note_value<'a, 'b>(
    o: &'a [u8],
    i: usize,
    e: usize,
    places: &'b mut [u16],
    prints: &'b mut [u16],
    n: usize,
) -> usize
    requires readable { Readable (code ",") (drop i o.now) × PartEnds (code ",") o.now i e × (e ≤ length o.now) × (length o.now ≤ 65536) }
    requires n_in_bounds { i < e → (n < length places.old) × (n < length prints.old) }
    requires noting { Noting o.now (texts_of (code ",") (drop i o.now)) (take n places.old) (take n prints.old) }
    ensures value { result ≡ pick (ltb i e) (n + 1) n }
    ensures noting_2 { Noting o.now (later o.now e) (take result places.new) (take result prints.new) }
{
    if i >= e {
        return n;
    }
    let p = print_text(&o[i..e]);
    places[n] = i as u16;
    prints[n] = p;
    n + 1
}

// Where each filled value of o begins, and its print. Such a value takes two bytes of o with its comma: half as many rows are enough.
pub fn note_values<'a, 'b>(o: &'a [u8], places: &'b mut [u16], prints: &'b mut [u16]) -> usize
    requires readable { Readable (code ",") o.now }
    requires o_len_bound { length o.now ≤ 65536 }
    requires o_len_bound_2 { (length o.now ≤ 2 * length places.old) × (length prints.old ≡ length places.old) }
    ensures { (result ≤ length places.new) × Noted o.now (take result places.new) (take result prints.new) }
{
    let mut n = 0;
    let mut i = 0;
    loop {
        let e = part_end(o, i, b',');
        n = note_value(o, i, e, places, prints, n);
        if e >= o.len() {
            return n;
        }
        i = e + 1;
    }
}

fn wide(place: u16) -> usize
    ensures { result ≡ place }
{
    place as usize
}

// Whether u is one of the values of o, which are noted: bytes are compared only where prints are equal.
pub fn is_noted<'a, 'b, 'c>(u: &'a [u8], o: &'b [u8], places: &'c [u16], prints: &'c [u16]) -> bool
    requires u_value { is_some (read_text u.now) ≡ true }
    requires noted { Noted o.now places.now prints.now }
    ensures { empty (plain_text u.now) ≡ false → result ≡ among (plain_text u.now) (texts_of (code ",") o.now) }
{
    let n = prints.len();
    let p = print_text(u);
    let mut k = next_print(prints, p, 0, n);
    while k < n {
        let a = wide(places[k]);
        let e = part_end(o, a, b',');
        if same_text(u, &o[a..e]) {
            return true;
        }
        k = next_print(prints, p, k + 1, n);
    }
    false
}
