// FN and N from the member `name` of the JSON: judged (12), written, and told whether lines can carry them (13).
#![tactic(auto)]

ghost use Rattle.std.specs.Prelude.{Ok, ◌≡◌, ◌≤◌, ◌<◌, length};
ghost use Rattle.json_index.specs.Index.{Clear};
ghost use Rattle.to_card_lines.specs.Lines.{LinesIn};
ghost use Rattle.to_card_parts.specs.Parts.{RowsFrom};
ghost use Rattle.card_table.specs.Numbers.{part_count};
ghost use Rattle.to_card_name.specs.Name.{TellsUnordered, TellsFull, ListedIn, ListsAs, TellsParts, TellsApart, OrderLine, FnLine, NLine, PutsAlone, PutsBoth, PutsList, PutsSlots, as_lines, PutsName, SaysFull};

use card_table::{lines, name, parts};
use json_access::{Kind, kind_at};
use json_index::index_object;
use line_pen::{fill, pen_bytes};
use to_card_lines::{Lines, Penned, put_string_line};
use to_card_order::{are_apart, pen_order};
use to_card_parts::{ROWS, list_rows, open_array};
use to_card_pen::{NoCard, style};
use to_card_value::string_in;

// The components: where the first stands, and how many rows they have.
#[derive(Drop)]
pub struct Listed {
    pub first: usize,
    pub rows: usize,
}

// The lines of a name, and whether it says a full name.
#[derive(Drop)]
pub struct Named {
    pub lines: Lines,
    pub full: bool,
}

// How many bytes and lines were written, and whether lines can carry what they say.
#[derive(Drop)]
pub struct Counted {
    pub bytes: usize,
    pub lines: usize,
    pub carried: bool,
}

// isOrdered is absent or false.
fn is_unordered(s: &[u8], slot: usize) -> bool
    ensures { TellsUnordered s.now slot result }
{
    if slot == 0 {
        return true;
    }
    match kind_at(s, slot) {
        Kind::False => true,
        Kind::Null => false,
        Kind::True => false,
        Kind::Number => false,
        Kind::String => false,
        Kind::Array => false,
        Kind::Object => false,
    }
}

// The full name in a slot: where its string stands, if it is there.
fn full_in(s: &[u8], slot: usize) -> Result<Option<usize>, NoCard>
    ensures { TellsFull s.now slot result }
{
    if slot == 0 {
        return Ok(None);
    }
    let q = string_in(s, slot);
    if q == 0 {
        return Err(NoCard);
    }
    Ok(Some(q))
}

// The components in a slot, if there are any: a row for each, and marks of the kinds that have a value.
fn list_components(
    marks: &mut [usize],
    kinds: &mut [usize],
    values: &mut [usize],
    s: &[u8],
    slot: usize,
) -> Result<Option<Listed>, NoCard>
    requires part_count_in_bounds { part_count ≤ length marks.old }
    requires clear { Clear marks.old }
    requires in_bounds { 16 ≤ length kinds.old }
    requires in_bounds_2 { 16 ≤ length values.old }
    ensures listed_in { ListedIn s.now kinds.new values.new result }
    ensures lists_as { ListsAs s.now slot marks.new result }
{
    if slot == 0 {
        return Ok(None);
    }
    if slot > s.len() {
        return Err(NoCard);
    }
    let Some(j) = open_array(s, slot)? else {
        return Ok(None);
    };
    let n = list_rows(marks, kinds, values, s, j);
    if n == 0 {
        return Err(NoCard);
    }
    Ok(Some(Listed { first: j, rows: n }))
}

// Whether any kind has a value.
fn has_parts(marks: &[usize]) -> bool
    requires { part_count ≤ length marks.now }
    ensures { TellsParts marks.now result }
{
    (marks[parts::SURNAME] != 0)
        | ((marks[parts::GIVEN] != 0)
            | ((marks[parts::GIVEN2] != 0)
                | ((marks[parts::TITLE] != 0)
                    | ((marks[parts::CREDENTIAL] != 0)
                        | ((marks[parts::SURNAME2] != 0) | (marks[parts::GENERATION] != 0))))))
}

// Whether two kinds have no value in common; looked for where both have values.
fn apart_in(
    s: &[u8],
    at: usize,
    marks: &[usize],
    kinds: &[usize],
    values: &[usize],
    rows: usize,
    one: usize,
    other: usize,
) -> bool
    requires at_in_bounds { at ≤ length s.now }
    requires part_count_in_bounds { part_count ≤ length marks.now }
    requires in_bounds { 16 ≤ length kinds.now }
    requires in_bounds_2 { 16 ≤ length values.now }
    requires rows_from { RowsFrom s.now at kinds.now values.now rows }
    requires one_lt_part_count { one < part_count }
    requires other_lt_part_count { other < part_count }
    ensures { TellsApart s.now at marks.now one other result }
{
    if marks[one] == 0 {
        return true;
    }
    if marks[other] == 0 {
        return true;
    }
    are_apart(s, at, kinds, values, rows, one, other)
}

// A line whose value is the values of the components in an order of kinds.
fn put_order_line(
    out: &mut [u8],
    head: &[u8],
    style: u8,
    mark: u8,
    s: &[u8],
    at: usize,
    marks: &[usize],
    kinds: &[usize],
    values: &[usize],
    rows: usize,
    order: &[u8],
) -> Penned
    requires at_in_bounds { at ≤ length s.now }
    requires part_count_in_bounds { part_count ≤ length marks.now }
    requires in_bounds { 16 ≤ length kinds.now }
    requires in_bounds_2 { 16 ≤ length values.now }
    requires rows_from { RowsFrom s.now at kinds.now values.now rows }
    ensures { OrderLine s.now at marks.now style mark head.now order.now out.old result out.new }
{
    let p = pen_bytes(out, 0, head);
    let n1 = p.bytes;
    let q = pen_order(
        &mut out[n1..],
        p.column,
        style,
        mark,
        s,
        at,
        marks,
        kinds,
        values,
        rows,
        order,
    );
    let n2 = n1 + q.bytes;
    let z = fill(&mut out[n2..], b"\r\n");
    let n3 = n2 + z;
    let ok = q.carried;
    Penned {
        bytes: n3,
        carried: ok,
    }
}

// FN: the full name, or one made of the components where there is none (its place is 0).
fn put_fn(
    out: &mut [u8],
    s: &[u8],
    full: usize,
    at: usize,
    marks: &[usize],
    kinds: &[usize],
    values: &[usize],
    rows: usize,
) -> Penned
    requires at_in_bounds { at ≤ length s.now }
    requires part_count_in_bounds { part_count ≤ length marks.now }
    requires in_bounds { 16 ≤ length kinds.now }
    requires in_bounds_2 { 16 ≤ length values.now }
    requires rows_from { RowsFrom s.now at kinds.now values.now rows }
    ensures { FnLine s.now full at marks.now out.old result out.new }
{
    if full != 0 {
        return put_string_line(out, &lines::FN, style::TEXT, s, full);
    }
    let p = put_order_line(
        out,
        &lines::DERIVED_FN,
        style::TEXT,
        b' ',
        s,
        at,
        marks,
        kinds,
        values,
        rows,
        &parts::FN_ORDER,
    );
    let n = p.bytes;
    Penned {
        bytes: n,
        carried: true,
    }
}

// N, where there is a component that is not empty: its parts with surname2 after the surname and generation after the credential.
fn put_n(
    out: &mut [u8],
    s: &[u8],
    at: usize,
    marks: &[usize],
    kinds: &[usize],
    values: &[usize],
    rows: usize,
) -> Counted
    requires at_in_bounds { at ≤ length s.now }
    requires part_count_in_bounds { part_count ≤ length marks.now }
    requires in_bounds { 16 ≤ length kinds.now }
    requires in_bounds_2 { 16 ≤ length values.now }
    requires rows_from { RowsFrom s.now at kinds.now values.now rows }
    ensures { NLine s.now at marks.now out.old result out.new }
{
    if !has_parts(marks) {
        return Counted {
            bytes: 0,
            lines: 0,
            carried: true,
        };
    }
    let p = put_order_line(
        out,
        &lines::N,
        style::PARTS,
        b',',
        s,
        at,
        marks,
        kinds,
        values,
        rows,
        &parts::N_ORDER,
    );
    let n = p.bytes;
    let ok = p.carried;
    let a = apart_in(
        s,
        at,
        marks,
        kinds,
        values,
        rows,
        parts::SURNAME,
        parts::SURNAME2,
    );
    let b = apart_in(
        s,
        at,
        marks,
        kinds,
        values,
        rows,
        parts::CREDENTIAL,
        parts::GENERATION,
    );
    Counted {
        bytes: n,
        lines: 1,
        carried: ok & (a & b),
    }
}

// The lines of a name without components.
fn put_alone(out: &mut [u8], s: &[u8], full: usize) -> Lines
    ensures lines_in { LinesIn (length out.old) (Ok result) }
    ensures out_len_unchanged { length out.new ≡ length out.old }
    ensures puts_alone { PutsAlone s.now full out.old (Ok result) out.new }
{
    if full == 0 {
        let n = fill(out, &lines::EMPTY_FN);
        return Lines {
            bytes: n,
            lines: 1,
            carries: true,
        };
    }
    let p = put_string_line(out, &lines::FN, style::TEXT, s, full);
    let n = p.bytes;
    let ok = p.carried;
    Lines {
        bytes: n,
        lines: 1,
        carries: ok,
    }
}

// The lines of a name with components.
fn put_both(
    out: &mut [u8],
    s: &[u8],
    full: usize,
    at: usize,
    marks: &[usize],
    kinds: &[usize],
    values: &[usize],
    rows: usize,
) -> Lines
    requires at_in_bounds { at ≤ length s.now }
    requires part_count_in_bounds { part_count ≤ length marks.now }
    requires in_bounds { 16 ≤ length kinds.now }
    requires in_bounds_2 { 16 ≤ length values.now }
    requires rows_from { RowsFrom s.now at kinds.now values.now rows }
    ensures lines_in { LinesIn (length out.old) (Ok result) }
    ensures out_len_unchanged { length out.new ≡ length out.old }
    ensures puts_both { PutsBoth s.now full at marks.now out.old (Ok result) out.new }
{
    let p = put_fn(out, s, full, at, marks, kinds, values, rows);
    let n = p.bytes;
    let t = put_n(&mut out[n..], s, at, marks, kinds, values, rows);
    let m = n + t.bytes;
    let k = 1 + t.lines;
    let ok = p.carried & t.carried;
    Lines {
        bytes: m,
        lines: k,
        carries: ok,
    }
}

// The lines of a name whose full name stands at a place (0: it has none), by the slot of its components.
fn put_list(out: &mut [u8], s: &[u8], full: usize, components: usize) -> Result<Lines, NoCard>
    ensures lines_in { LinesIn (length out.old) result }
    ensures out_len_unchanged { length out.new ≡ length out.old }
    ensures puts_list { PutsList s.now full components out.old result out.new }
{
    let mut marks = [0usize; parts::COUNT];
    let mut kinds = [0usize; ROWS];
    let mut values = [0usize; ROWS];
    match list_components(&mut marks, &mut kinds, &mut values, s, components)? {
        None => Ok(put_alone(out, s, full)),
        Some(l) => Ok(put_both(out, s, full, l.first, &marks, &kinds, &values, l.rows)),
    }
}

// The lines of a name, by the slots of its members, and that of any other member.
fn put_slots(
    out: &mut [u8],
    s: &[u8],
    full: usize,
    components: usize,
    ordered: usize,
    other: usize,
) -> Result<Lines, NoCard>
    ensures lines_in { LinesIn (length out.old) result }
    ensures out_len_unchanged { length out.new ≡ length out.old }
    ensures puts_slots { PutsSlots s.now full components ordered other out.old result out.new }
{
    if other != 0 {
        return Err(NoCard);
    }
    if (full == 0) & (components == 0) {
        return Err(NoCard);
    }
    if !is_unordered(s, ordered) {
        return Err(NoCard);
    }
    match full_in(s, full)? {
        None => put_list(out, s, 0, components),
        Some(q) => put_list(out, s, q, components),
    }
}

// FN, and N where there is a component, by the slot of `name`.
pub fn put_name(out: &mut [u8], s: &[u8], slot: usize) -> Result<Named, NoCard>
    ensures lines_in { LinesIn (length out.old) (as_lines result) }
    ensures out_len_unchanged { length out.new ≡ length out.old }
    ensures puts_name { PutsName s.now slot out.old (as_lines result) out.new }
    ensures says_full { SaysFull s.now slot result }
{
    if slot == 0 {
        let lines = put_alone(out, s, 0);
        return Ok(Named { lines, full: false });
    }
    if slot > s.len() {
        return Err(NoCard);
    }
    let mut slots = [0usize; name::SLOTS];
    if !index_object(&mut slots, s, slot, name::DEPTH, &name::NAMES) {
        return Err(NoCard);
    }
    let a = slots[name::FULL];
    let b = slots[name::COMPONENTS];
    let c = slots[name::ORDERED];
    let d = slots[name::OTHER];
    let lines = put_slots(out, s, a, b, c, d)?;
    Ok(Named {
        lines,
        full: a != 0,
    })
}
