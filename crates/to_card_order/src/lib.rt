// The values of a name's components in an order of kinds that is given as data, and whether two kinds have no value in common.
#![tactic(auto)]

ghost use Rattle.std.specs.Prelude.{◌≡◌, ◌&&◌, ◌≤◌, length};
ghost use Rattle.json_strings.specs.Decoded.{decoded_at, agree};
ghost use Rattle.to_card_parts.specs.Parts.{RowsFrom};
ghost use Rattle.card_table.specs.Numbers.{part_count};
ghost use Rattle.to_card_order.specs.Order.{InksPlace, InksOrder, FindsAmong, Clashes, TellsApart, PrintsValue, MeetsNoted, ApartNoted, NotesValue};

use card_table::parts;
use json_marks::separator;
use json_prints::{is_noted_wide, print_at};
use json_strings::same_text;
use line_pen::pen_byte;
use std::ops::ControlFlow;
use text::RIGHT_BRACKET;
use to_card_head::is_filled;
use to_card_parts::{Inked, ROWS, component_to_end, pen_listed};
use to_card_pen::Told;

// No value has this print.
const NO_PRINT: u32 = 65536;

// So many values are noted at once: a component with one takes 29 bytes with its comma, so a text of 65,536 bytes has fewer.
const NOTED: usize = 2304;

// One place of an order: a semicolon, or the values of the kind that a digit names, by the rows of the components. Kinds without a mark have no values.
fn pen_place(
    out: &mut [u8],
    column: usize,
    style: u8,
    mark: u8,
    s: &[u8],
    at: usize,
    marks: &[usize],
    kinds: &[usize],
    values: &[usize],
    rows: usize,
    place: u8,
    begun: bool,
) -> Inked
    requires at_in_bounds { at ≤ length s.now }
    requires part_count_in_bounds { part_count ≤ length marks.now }
    requires in_bounds { 16 ≤ length kinds.now }
    requires in_bounds_2 { 16 ≤ length values.now }
    requires rows_from { RowsFrom s.now at kinds.now values.now rows }
    ensures { InksPlace s.now at marks.now style mark place begun out.old column result out.new }
{
    if place == b';' {
        let p = pen_byte(out, column, place);
        let n = p.bytes;
        let k = p.column;
        return Inked {
            bytes: n,
            column: k,
            begun: false,
            carried: true,
        };
    }
    if place < b'0' {
        return Inked {
            bytes: 0,
            column: column,
            begun: begun,
            carried: true,
        };
    }
    let kind = (place - b'0') as usize;
    if kind >= parts::COUNT {
        return Inked {
            bytes: 0,
            column: column,
            begun: begun,
            carried: true,
        };
    }
    if marks[kind] == 0 {
        return Inked {
            bytes: 0,
            column: column,
            begun: begun,
            carried: true,
        };
    }
    pen_listed(
        out, column, style, mark, s, at, kinds, values, rows, kind, begun,
    )
}

// The values of the components from a place on, by their rows, in an order of kinds: a digit is a kind, a semicolon itself.
pub fn pen_order(
    out: &mut [u8],
    column: usize,
    style: u8,
    mark: u8,
    s: &[u8],
    at: usize,
    marks: &[usize],
    kinds: &[usize],
    values: &[usize],
    rows: usize,
    order: &[u8],
) -> Told
    requires at_in_bounds { at ≤ length s.now }
    requires part_count_in_bounds { part_count ≤ length marks.now }
    requires in_bounds { 16 ≤ length kinds.now }
    requires in_bounds_2 { 16 ≤ length values.now }
    requires rows_from { RowsFrom s.now at kinds.now values.now rows }
    ensures { InksOrder s.now at marks.now style mark order.now out.old column result out.new }
{
    let mut n = 0;
    let mut c = column;
    let mut b = false;
    let mut ok = true;
    for place in order {
        let t = pen_place(
            &mut out[n..],
            c,
            style,
            mark,
            s,
            at,
            marks,
            kinds,
            values,
            rows,
            *place,
            b,
        );
        n += t.bytes;
        c = t.column;
        b = t.begun;
        ok = ok & t.carried;
    }
    Told {
        bytes: n,
        column: c,
        carried: ok,
    }
}

// Whether two strings are the same, where that is asked.
fn agrees(s: &[u8], wanted: bool, a: usize, b: usize) -> bool
    ensures { result ≡ wanted && agree (decoded_at s.now a) (decoded_at s.now b) }
{
    if !wanted {
        return false;
    }
    same_text(s, a, b)
}

// Whether a string that is not empty is a value of a kind, by the rows of the components from a place on.
fn is_listed(
    s: &[u8],
    at: usize,
    kinds: &[usize],
    values: &[usize],
    rows: usize,
    kind: usize,
    value: usize,
) -> bool
    requires at_in_bounds { at ≤ length s.now }
    requires in_bounds { 16 ≤ length kinds.now }
    requires in_bounds_2 { 16 ≤ length values.now }
    requires rows_bound { rows ≤ 16 }
    requires rows_from { RowsFrom s.now at kinds.now values.now rows }
    ensures { FindsAmong s.now at kind value result }
{
    let mut found = false;
    for i in 0..rows {
        found = found | agrees(s, kind == kinds[i], value, values[i]);
    }
    found
}

// Whether a value, where it is asked for and not empty, is one of a kind too.
fn clashes(
    s: &[u8],
    at: usize,
    kinds: &[usize],
    values: &[usize],
    rows: usize,
    wanted: bool,
    value: usize,
    kind: usize,
) -> bool
    requires at_in_bounds { at ≤ length s.now }
    requires in_bounds { 16 ≤ length kinds.now }
    requires in_bounds_2 { 16 ≤ length values.now }
    requires rows_bound { rows ≤ 16 }
    requires rows_from { RowsFrom s.now at kinds.now values.now rows }
    ensures { Clashes s.now at wanted value kind result }
{
    if !wanted {
        return false;
    }
    if !is_filled(s, value) {
        return false;
    }
    is_listed(s, at, kinds, values, rows, kind, value)
}

// The print of a value that is asked for and not empty; none for others. (The number for none is that of `print_at`: an Option made of it would be no plainer.)
fn value_print(s: &[u8], wanted: bool, value: usize) -> u32
    ensures { PrintsValue s.now wanted value result }
{
    if !wanted {
        return NO_PRINT;
    }
    if !is_filled(s, value) {
        return NO_PRINT;
    }
    print_at(s, value)
}

// Whether a value, where it is asked for and not empty, is one of those noted.
fn is_met<'a, 'b>(
    s: &'a [u8],
    wanted: bool,
    value: usize,
    places: &'b [usize],
    prints: &'b [u16],
    count: usize,
) -> bool
    requires count_in_bounds { count ≤ length places.now }
    requires count_in_bounds_2 { count ≤ length prints.now }
    ensures { MeetsNoted s.now wanted value places.now prints.now count result }
{
    let m = value_print(s, wanted, value);
    if m == NO_PRINT {
        return false;
    }
    is_noted_wide(s, value, m as u16, places, prints, count)
}

// Whether no value of a kind is one of those noted, of the components from a place on.
fn none_met<'a, 'b>(
    s: &'a [u8],
    at: usize,
    kind: usize,
    places: &'b [usize],
    prints: &'b [u16],
    count: usize,
) -> bool
    requires at_in_bounds { at ≤ length s.now }
    requires count_in_bounds { count ≤ length places.now }
    requires count_in_bounds_2 { count ≤ length prints.now }
    ensures { ApartNoted s.now at kind places.now prints.now count result }
{
    if count == 0 {
        return true;
    }
    let mut i = at;
    let mut ok = true;
    loop {
        // No `?`: the list was judged before, so there is no 12 to hand on.
        let Ok(part) = component_to_end(s, i) else {
            return ok;
        };
        ok = ok
            & !is_met(
                s,
                kind == part.found.kind,
                part.found.value,
                places,
                prints,
                count,
            );
        match separator(s, part.end, RIGHT_BRACKET) {
            ControlFlow::Continue(j) => {
                i = j;
            }
            ControlFlow::Break(r) => {
                return ok;
            }
        }
    }
}

// How many values are noted, and whether no value of the one kind is one of those that had to go.
#[derive(Drop)]
struct Kept {
    count: usize,
    ok: bool,
}

// A value, where it is asked for and not empty, is noted. Where there is no place left, those noted go, after the values of the one kind have met them.
fn note_value<'a, 'b>(
    places: &'a mut [usize],
    prints: &'a mut [u16],
    count: usize,
    s: &'b [u8],
    at: usize,
    one: usize,
    wanted: bool,
    value: usize,
) -> Kept
    requires at_in_bounds { at ≤ length s.now }
    requires in_bounds { 2304 ≤ length places.old }
    requires in_bounds_2 { 2304 ≤ length prints.old }
    requires count_bound { count ≤ 2304 }
    ensures { NotesValue s.now at one wanted value places.old prints.old count places.new prints.new result }
{
    let m = value_print(s, wanted, value);
    if m == NO_PRINT {
        return Kept {
            count: count,
            ok: true,
        };
    }
    if count < NOTED {
        places[count] = value;
        prints[count] = m as u16;
        return Kept {
            count: count + 1,
            ok: true,
        };
    }
    let ok = none_met(s, at, one, places, prints, count);
    places[0] = value;
    prints[0] = m as u16;
    Kept { count: 1, ok: ok }
}

// Whether no value of the one kind is a value of the other, of the components from a place on: the other's values are noted, then the one's meet them.
fn note_apart<'a, 'b>(
    places: &'a mut [usize],
    prints: &'a mut [u16],
    s: &'b [u8],
    at: usize,
    one: usize,
    other: usize,
) -> bool
    requires at_in_bounds { at ≤ length s.now }
    requires in_bounds { 2304 ≤ length places.old }
    requires in_bounds_2 { 2304 ≤ length prints.old }
    ensures { TellsApart s.now at one other result }
{
    let mut i = at;
    let mut n = 0;
    let mut ok = true;
    loop {
        // No `?`: the list was judged before, so there is no 12 to hand on.
        let Ok(part) = component_to_end(s, i) else {
            return ok;
        };
        let t = note_value(
            places,
            prints,
            n,
            s,
            at,
            one,
            other == part.found.kind,
            part.found.value,
        );
        n = t.count;
        ok = ok & t.ok;
        match separator(s, part.end, RIGHT_BRACKET) {
            ControlFlow::Continue(j) => {
                i = j;
            }
            ControlFlow::Break(r) => {
                return ok & none_met(s, at, one, places, prints, n);
            }
        }
    }
}

// The same, with places for the values.
fn walk_apart(s: &[u8], at: usize, one: usize, other: usize) -> bool
    requires { at ≤ length s.now }
    ensures { TellsApart s.now at one other result }
{
    let mut places = [0usize; NOTED];
    let mut prints = [0u16; NOTED];
    note_apart(&mut places, &mut prints, s, at, one, other)
}

// Whether no value of the one kind is a value of the other, by the rows of the components from a place on.
pub fn are_apart(
    s: &[u8],
    at: usize,
    kinds: &[usize],
    values: &[usize],
    rows: usize,
    one: usize,
    other: usize,
) -> bool
    requires at_in_bounds { at ≤ length s.now }
    requires in_bounds { 16 ≤ length kinds.now }
    requires in_bounds_2 { 16 ≤ length values.now }
    requires rows_from { RowsFrom s.now at kinds.now values.now rows }
    ensures { TellsApart s.now at one other result }
{
    if rows > ROWS {
        return walk_apart(s, at, one, other);
    }
    let mut ok = true;
    for i in 0..rows {
        ok = ok
            & !clashes(
                s,
                at,
                kinds,
                values,
                rows,
                one == kinds[i],
                values[i],
                other,
            );
    }
    ok
}
