// The components of a name: judged in one pass, and written kind by kind, in an order that is given as data.
#![tactic(auto)]

ghost use Rattle.std.specs.Prelude.{◌≡◌, true, ◌≤◌, ◌<◌, length};
ghost use Rattle.json_index.specs.Index.{Clear};
ghost use Rattle.card_table.specs.Numbers.{part_count};
ghost use Rattle.to_card_parts.specs.Parts.{KindIn, TellsSlots, TellsComponent, found_of, EndIn, ArrayIn, OpensAs, Marks, ChecksFrom, InksOne, InksKind, AddsRow, RowsFrom};

use card_table::{component, parts};
use json_index::{index_to_end, which_name};
use json_marks::{separator, skip_space};
use line_pen::pen_byte;
use std::ops::ControlFlow;
use text::{LEFT_BRACKET, RIGHT_BRACKET, look};
use to_card_head::is_filled;
use to_card_pen::{NoCard, pen_string};
use to_card_value::string_in;

// So many components have a row each; more are gone through again where they are asked for.
pub const ROWS: usize = 16;

pub const MORE: usize = ROWS + 1;

// A component: the place of its kind among the kinds, and the place of its value.
#[derive(Drop)]
pub struct Found {
    pub kind: usize,
    pub value: usize,
}

// The same, and the place after the component.
#[derive(Drop)]
pub struct Ended {
    pub found: Found,
    pub end: usize,
}

// How many bytes were written, the column after them, whether a value has been written, and whether a line can carry what was.
#[derive(Drop)]
pub struct Inked {
    pub bytes: usize,
    pub column: usize,
    pub begun: bool,
    pub carried: bool,
}

// A component, by the slots of its kind and its value.
fn component_of(s: &[u8], kind: usize, value: usize) -> Result<Found, NoCard>
    ensures kind_in { KindIn result }
    ensures tells_slots { TellsSlots s.now kind value result }
{
    if kind == 0 {
        return Err(NoCard);
    }
    if value == 0 {
        return Err(NoCard);
    }
    let q = string_in(s, kind);
    if q == 0 {
        return Err(NoCard);
    }
    let k = which_name(s, q, &parts::KINDS);
    if k >= parts::COUNT {
        return Err(NoCard);
    }
    let v = string_in(s, value);
    if v == 0 {
        return Err(NoCard);
    }
    Ok(Found { kind: k, value: v })
}

// The component at a place, and the place after it.
pub fn component_to_end(s: &[u8], at: usize) -> Result<Ended, NoCard>
    requires { at ≤ length s.now }
    ensures kind_in { KindIn (found_of result) }
    ensures tells_component { TellsComponent s.now at (found_of result) }
    ensures end_in { EndIn s.now at result }
{
    let mut slots = [0usize; component::SLOTS];
    let end = index_to_end(&mut slots, s, at, component::DEPTH, &component::NAMES);
    if end == 0 {
        return Err(NoCard);
    }
    let a = slots[component::KIND];
    let b = slots[component::VALUE];
    let other = slots[component::OTHER];
    if other != 0 {
        return Err(NoCard);
    }
    let found = component_of(s, a, b)?;
    Ok(Ended { found, end })
}

// The array at a place: where its first element stands, if it has one.
pub fn open_array(s: &[u8], at: usize) -> Result<Option<usize>, NoCard>
    requires { at ≤ length s.now }
    ensures array_in { ArrayIn (length s.now) result }
    ensures opens_as { OpensAs s.now at result }
{
    let i = skip_space(s, at);
    if look(s, i) != LEFT_BRACKET {
        return Err(NoCard);
    }
    let j = skip_space(s, i + 1);
    if look(s, j) == RIGHT_BRACKET {
        return Ok(None);
    }
    Ok(Some(j))
}

// Marks the kind of a value that is not empty.
fn mark_kind(marks: &mut [usize], s: &[u8], kind: usize, value: usize) -> bool
    requires { kind < length marks.old }
    ensures { Marks s.now value kind marks.old marks.new }
{
    if !is_filled(s, value) {
        return false;
    }
    marks[kind] = 1;
    true
}

// A row for one more component: its kind, and the place of its value. How many rows there are then; MORE where there is none left.
fn put_row(
    kinds: &mut [usize],
    values: &mut [usize],
    rows: usize,
    kind: usize,
    value: usize,
) -> usize
    requires in_bounds { 16 ≤ length kinds.old }
    requires in_bounds_2 { 16 ≤ length values.old }
    ensures { AddsRow kinds.old values.old rows kind value kinds.new values.new result }
{
    if rows >= ROWS {
        return MORE;
    }
    kinds[rows] = kind;
    values[rows] = value;
    rows + 1
}

// A row for each component from a place on, and marks of the kinds that have a value that is not empty. How many there are; MORE where they are more than the rows; 0 where an element is no component.
pub fn list_rows(
    marks: &mut [usize],
    kinds: &mut [usize],
    values: &mut [usize],
    s: &[u8],
    at: usize,
) -> usize
    requires at_in_bounds { at ≤ length s.now }
    requires part_count_in_bounds { part_count ≤ length marks.old }
    requires clear { Clear marks.old }
    requires in_bounds { 16 ≤ length kinds.old }
    requires in_bounds_2 { 16 ≤ length values.old }
    ensures checks_from { ChecksFrom s.now at marks.new result }
    ensures rows_from { RowsFrom s.now at kinds.new values.new result }
{
    let mut i = at;
    let mut n = 0;
    loop {
        let Ok(part) = component_to_end(s, i) else {
            return 0;
        };
        mark_kind(marks, s, part.found.kind, part.found.value);
        n = put_row(kinds, values, n, part.found.kind, part.found.value);
        match separator(s, part.end, RIGHT_BRACKET) {
            ControlFlow::Continue(j) => {
                i = j;
            }
            ControlFlow::Break(r) => {
                return n;
            }
        }
    }
}

// One value that is wanted, after the mark between values where one has been written before; nothing where it is empty.
fn pen_wanted(
    out: &mut [u8],
    column: usize,
    style: u8,
    mark: u8,
    s: &[u8],
    at: usize,
    begun: bool,
) -> Inked
    ensures { InksOne s.now at style mark true begun out.old column result out.new }
{
    if !is_filled(s, at) {
        return Inked {
            bytes: 0,
            column: column,
            begun: begun,
            carried: true,
        };
    }
    if !begun {
        let t = pen_string(out, column, style, s, at);
        let n = t.bytes;
        let k = t.column;
        let ok = t.carried;
        return Inked {
            bytes: n,
            column: k,
            begun: true,
            carried: ok,
        };
    }
    let p = pen_byte(out, column, mark);
    let n = p.bytes;
    let t = pen_string(&mut out[n..], p.column, style, s, at);
    let m = n + t.bytes;
    let k = t.column;
    let ok = t.carried;
    Inked {
        bytes: m,
        column: k,
        begun: true,
        carried: ok,
    }
}

// The same of any value; nothing where it is not wanted, as most are not.
fn pen_value(
    out: &mut [u8],
    column: usize,
    style: u8,
    mark: u8,
    s: &[u8],
    at: usize,
    wanted: bool,
    begun: bool,
) -> Inked
    ensures { InksOne s.now at style mark wanted begun out.old column result out.new }
{
    if wanted {
        return pen_wanted(out, column, style, mark, s, at, begun);
    }
    Inked {
        bytes: 0,
        column: column,
        begun: begun,
        carried: true,
    }
}

// The values of one kind, of the components from a place on.
fn pen_kind(
    out: &mut [u8],
    column: usize,
    style: u8,
    mark: u8,
    s: &[u8],
    at: usize,
    kind: usize,
    begun: bool,
) -> Inked
    requires { at ≤ length s.now }
    ensures { InksKind s.now at style mark kind begun out.old column result out.new }
{
    let mut i = at;
    let mut n = 0;
    let mut c = column;
    let mut b = begun;
    let mut ok = true;
    loop {
        // No `?`: the list was judged before, so there is no 12 to hand on.
        let Ok(part) = component_to_end(s, i) else {
            return Inked {
                bytes: n,
                column: c,
                begun: b,
                carried: ok,
            };
        };
        let t = pen_value(
            &mut out[n..],
            c,
            style,
            mark,
            s,
            part.found.value,
            kind == part.found.kind,
            b,
        );
        n += t.bytes;
        c = t.column;
        b = t.begun;
        ok = ok & t.carried;
        match separator(s, part.end, RIGHT_BRACKET) {
            ControlFlow::Continue(j) => {
                i = j;
            }
            ControlFlow::Break(r) => {
                return Inked {
                    bytes: n,
                    column: c,
                    begun: b,
                    carried: ok,
                };
            }
        }
    }
}

// The values of one kind, by the rows of the components from a place on.
pub fn pen_listed(
    out: &mut [u8],
    column: usize,
    style: u8,
    mark: u8,
    s: &[u8],
    at: usize,
    kinds: &[usize],
    values: &[usize],
    rows: usize,
    kind: usize,
    begun: bool,
) -> Inked
    requires at_in_bounds { at ≤ length s.now }
    requires in_bounds { 16 ≤ length kinds.now }
    requires in_bounds_2 { 16 ≤ length values.now }
    requires rows_from { RowsFrom s.now at kinds.now values.now rows }
    ensures { InksKind s.now at style mark kind begun out.old column result out.new }
{
    if rows > ROWS {
        return pen_kind(out, column, style, mark, s, at, kind, begun);
    }
    let mut n = 0;
    let mut c = column;
    let mut b = begun;
    let mut ok = true;
    for i in 0..rows {
        let t = pen_value(
            &mut out[n..],
            c,
            style,
            mark,
            s,
            values[i],
            kind == kinds[i],
            b,
        );
        n += t.bytes;
        c = t.column;
        b = t.begun;
        ok = ok & t.carried;
    }
    Inked {
        bytes: n,
        column: c,
        begun: b,
        carried: ok,
    }
}
