// The maps of a card's JSON, from its classified lines. A map's row is its member's name, its keys' prefix, and the rows of `class_properties`.
#![tactic(auto)]

ghost use Rattle.std.specs.Prelude.{◌≡◌, false, ◌∷◌, [], ◌+◌, ◌≤◌, ◌<◌, eqb, length};
ghost use Rattle.text.specs.Bytes.{code, is, any};
ghost use Rattle.from_card_lines.specs.Classified.{of_lines};
ghost use Rattle.output.specs.Put.{Puts};
ghost use Rattle.convert.specs.Keys.{numbered};
ghost use Rattle.line_table.specs.Table.{table_length};
ghost use Rattle.card_table.specs.Numbers.{map_count};
ghost use Rattle.to_json_maps.specs.Maps.{map_at, prefix_of, head_piece, Entering, MarksLine, Unmarked, HasLines, NoIds, MarksIds, HasEntry, PutsKeyed, HasTurn, PutsTurn, HasMap, PutsMap, PutsMaps};

use card_table::{emails, links, maps, nicknames, notes, organizations, params, phones, titles};
use class_properties::{form_of, types_of};
use convert_params::Rows;
use from_card_lines::ClassedLines;
use line_table::fill;
use line_unfold::line_at;
use output::{Full, put_byte, put_text};
use table_params::scan_rows;
use to_json_entry::{kind_of_line, put_map_line};
use to_json_keys::{ROW, mark_key, next_number, put_key};

// So many bytes has a made key at most, and so many its prefix.
const KEY: usize = 32;

const PREFIX: usize = 16;

// What comes before an entry of the map i: its member's name, or a comma where there is an entry before.
fn put_map_head(out: &mut [u8], i: usize, begun: bool) -> Result<usize, Full>
    ensures { Puts out.old (head_piece (map_at i) begun) result out.new }
{
    if begun {
        return put_byte(out, b',');
    }
    if i == nicknames::MAP {
        return put_text(out, &nicknames::HEAD);
    }
    if i == emails::MAP {
        return put_text(out, &emails::HEAD);
    }
    if i == phones::MAP {
        return put_text(out, &phones::HEAD);
    }
    if i == links::MAP {
        return put_text(out, &links::HEAD);
    }
    if i == notes::MAP {
        return put_text(out, &notes::HEAD);
    }
    if i == titles::MAP {
        return put_text(out, &titles::HEAD);
    }
    if i == organizations::MAP {
        return put_text(out, &organizations::HEAD);
    }
    put_text(out, &maps::NO_HEAD)
}

// The prefix of the keys that are made for the map i.
fn put_prefix(out: &mut [u8], i: usize) -> Result<usize, Full>
    ensures { Puts out.old (prefix_of i) result out.new }
{
    if i == nicknames::MAP {
        return put_text(out, &nicknames::PREFIX);
    }
    if i == emails::MAP {
        return put_text(out, &emails::PREFIX);
    }
    if i == phones::MAP {
        return put_text(out, &phones::PREFIX);
    }
    if i == links::MAP {
        return put_text(out, &links::PREFIX);
    }
    if i == notes::MAP {
        return put_text(out, &notes::PREFIX);
    }
    if i == titles::MAP {
        return put_text(out, &titles::PREFIX);
    }
    if i == organizations::MAP {
        return put_text(out, &organizations::PREFIX);
    }
    Ok(0)
}

// Whether a line has a dash, as PROP-ID has: most lines have none, and so no PROP-ID. No early way out: the loop is a vector loop.
fn has_dash(line: &[u8]) -> bool
    ensures { result ≡ false → any (is (code "-")) line.now ≡ false }
{
    let mut found = false;
    for b in line {
        found = found | (*b == b'-');
    }
    found
}

// Marks the number that the line's PROP-ID takes, and answers whether it has one.
fn mark_line(row: &mut [u8], t: &mut [usize], s: &[u8], prefix: &[u8]) -> bool
    requires { (1025 ≤ length row.old) × (table_length ≤ length t.old) × Entering s.now }
    ensures { MarksLine prefix.now s.now row.old row.new result }
{
    if !has_dash(s) {
        return false;
    }
    let mut counts = [0usize; params::COUNT];
    let mut froms = [0usize; params::COUNT];
    let mut tos = [0usize; params::COUNT];
    if !fill(t, s) {
        return false;
    }
    scan_rows(&mut counts, &mut froms, &mut tos, s, t);
    let k = counts[params::PROP_ID];
    if k == 0 {
        return false;
    }
    let a = froms[params::PROP_ID];
    let b = tos[params::PROP_ID];
    mark_key(row, prefix, &s[a..b]);
    true
}

// Whether a line's number is that of the map i.
pub fn is_of(code: u8, i: usize) -> bool
    ensures { result ≡ eqb code i }
{
    code as usize == i
}

// Marks the numbers that the PROP-IDs of the map i take, and answers whether there is one.
fn mark_ids(
    row: &mut [u8],
    t: &mut [usize],
    prefix: &[u8],
    lines: ClassedLines<'_>,
    i: usize,
) -> bool
    requires { Unmarked row.old × (table_length ≤ length t.old) × of_lines HasLines lines × (i < 16) }
    ensures { of_lines (MarksIds prefix.now) lines.entry i row.new result }
{
    let mut any = false;
    for k in 0..lines.count {
        if !is_of(lines.codes[k], i) {
            continue;
        }
        let s = line_at(lines.scratch, lines.starts, k);
        let on = mark_line(row, t, s, prefix);
        any = any | on;
    }
    any
}

// Whether a line of the map i may have a PROP-ID: none has where there is no dash.
fn may_have_ids(lines: ClassedLines<'_>, i: usize) -> bool
    requires { of_lines HasLines lines × (i < 16) }
    ensures { result ≡ false → of_lines NoIds lines.entry i }
{
    for k in 0..lines.count {
        if !is_of(lines.codes[k], i) {
            continue;
        }
        if has_dash(line_at(lines.scratch, lines.starts, k)) {
            return true;
        }
    }
    false
}

// ---- writing

// A line of the map i as an entry with that key, after the map's name or a comma.
fn put_keyed(
    out: &mut [u8],
    s: &[u8],
    t: &[usize],
    rows: Rows<'_>,
    i: usize,
    begun: bool,
    key: &[u8],
) -> Result<usize, Full>
    requires { HasEntry s.now t.now rows i }
    ensures { PutsKeyed out.old s.now t.now i begun key.now result out.new }
{
    let types = types_of(i);
    let form = form_of(i);
    let kind = kind_of_line(s, t);
    let a = put_map_head(out, i, begun)?;
    let b = put_map_line(&mut out[a..], s, t, rows, i, types, form, kind, key)?;
    let ab = a + b;
    Ok(ab)
}

// The same with the made key of that number.
fn put_made(
    out: &mut [u8],
    s: &[u8],
    t: &[usize],
    rows: Rows<'_>,
    i: usize,
    begun: bool,
    prefix: &[u8],
    number: usize,
) -> Result<usize, Full>
    requires { HasEntry s.now t.now rows i × (length (numbered prefix.now number) ≤ 32) }
    ensures { PutsKeyed out.old s.now t.now i begun (numbered prefix.now number) result out.new }
{
    let mut key = [0u8; KEY];
    let k = put_key(&mut key, prefix, number)?;
    put_keyed(out, s, t, rows, i, begun, &key[0..k])
}

// How many bytes were written, and from which number on the next made key is sought.
#[derive(Clone, Copy)]
pub struct Put {
    pub bytes: usize,
    pub next: usize,
}

// A line of the map i as an entry with its PROP-ID, or else the next made key.
fn put_turn(
    out: &mut [u8],
    t: &mut [usize],
    s: &[u8],
    i: usize,
    begun: bool,
    prefix: &[u8],
    row: &[u8],
    taken: bool,
    from: usize,
) -> Result<Put, Full>
    requires { (table_length ≤ length t.old) × HasTurn s.now prefix.now row.now i taken from }
    ensures { PutsTurn out.old s.now prefix.now row.now i begun taken from result out.new }
{
    let mut counts = [0usize; params::COUNT];
    let mut froms = [0usize; params::COUNT];
    let mut tos = [0usize; params::COUNT];
    if !fill(t, s) {
        return Err(Full);
    }
    scan_rows(&mut counts, &mut froms, &mut tos, s, t);
    let rows = Rows {
        counts: &counts,
        froms: &froms,
        tos: &tos,
    };
    let ids = counts[params::PROP_ID];
    if ids == 0 {
        let number = next_number(row, taken, from);
        let next = number + 1;
        let bytes = put_made(out, s, t, rows, i, begun, prefix, number)?;
        return Ok(Put { bytes, next });
    }
    let a = froms[params::PROP_ID];
    let b = tos[params::PROP_ID];
    let bytes = put_keyed(out, s, t, rows, i, begun, &s[a..b])?;
    Ok(Put { bytes, next: from })
}

// The entries of the map i, in the order of their lines.
fn put_entries(
    out: &mut [u8],
    t: &mut [usize],
    lines: ClassedLines<'_>,
    i: usize,
    prefix: &[u8],
    row: &[u8],
    taken: bool,
) -> Result<usize, Full>
    requires { (table_length ≤ length t.old) × of_lines HasMap lines i prefix.now row.now taken }
    ensures { of_lines (PutsMap out.old) lines.entry i result out.new }
{
    let mut at = 0;
    let mut from = 1;
    let mut begun = false;
    for k in 0..lines.count {
        if !is_of(lines.codes[k], i) {
            continue;
        }
        let s = line_at(lines.scratch, lines.starts, k);
        let put = put_turn(&mut out[at..], t, s, i, begun, prefix, row, taken, from)?;
        at += put.bytes;
        from = put.next;
        begun = true;
    }
    if !begun {
        return Ok(at);
    }
    let m = put_byte(&mut out[at..], b'}')?;
    let all = at + m;
    Ok(all)
}

// The member of the map i. A row is cleared only where there are PROP-IDs to mark in it.
fn put_map(
    out: &mut [u8],
    t: &mut [usize],
    lines: ClassedLines<'_>,
    i: usize,
) -> Result<usize, Full>
    requires { (table_length ≤ length t.old) × of_lines HasLines lines × (i < map_count) }
    ensures { of_lines (PutsMap out.old) lines.entry i result out.new }
{
    let mut prefix = [0u8; PREFIX];
    let p = put_prefix(&mut prefix, i)?;
    if !may_have_ids(lines, i) {
        let none = [0u8; 1];
        return put_entries(out, t, lines, i, &prefix[0..p], &none, false);
    }
    let mut row = [0u8; ROW];
    let taken = mark_ids(&mut row, t, &prefix[0..p], lines, i);
    put_entries(out, t, lines, i, &prefix[0..p], &row, taken)
}

// The members of all maps, in the table's order.
pub fn put_maps(out: &mut [u8], t: &mut [usize], lines: ClassedLines<'_>) -> Result<usize, Full>
    requires { (table_length ≤ length t.old) × of_lines HasLines lines }
    ensures { of_lines (PutsMaps out.old) lines.entry result out.new }
{
    let mut at = 0;
    for i in 0..maps::COUNT {
        let m = put_map(&mut out[at..], t, lines, i)?;
        at += m;
    }
    Ok(at)
}
