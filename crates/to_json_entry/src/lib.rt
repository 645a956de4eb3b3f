// A line of a map that converts, written as an entry straight from the line's table.
#![tactic(auto)]

ghost use Rattle.std.specs.Prelude.{◌≡◌, true, false, [], ◌≤◌, length};
ghost use Rattle.text.specs.Choice.{is_some, pick};
ghost use Rattle.text.specs.Bytes.{code, keep};
ghost use Rattle.line.specs.Text.{read_text, split_text};
ghost use Rattle.line_text.specs.Split.{PartEnds};
ghost use Rattle.convert.specs.Value.{filled};
ghost use Rattle.convert_values.specs.Values.{texts_of, Readable};
ghost use Rattle.output.specs.Put.{Puts};
ghost use Rattle.line_table.specs.Table.{Sound};
ghost use Rattle.convert_put.specs.Pieces.{entry_pieces};
ghost use Rattle.card_table.specs.Numbers.{type_count};
ghost use Rattle.to_json_entry.specs.Entry.{MapLine, PutsEntry, KindOfLine, string_piece, org_name, units_piece, units_after, org_piece, strings_piece, StringsSound};

use card_table::{forms, kinds, params, parts, titles, types, values};
use convert_entry::value_kind;
use convert_params::Rows;
use convert_put::{put_content, put_flags, put_kind, put_pref, put_value};
use json_write::put_name;
use line_name::is_named;
use line_table::table;
use line_text::part_end;
use output::{Full, put_byte};
use table_params::mark_rows;
use to_json_items::put_items;

// The member that holds the string of the map i: raw, or TEXT.
fn put_string_member(out: &mut [u8], i: usize, raw: bool, v: &[u8]) -> Result<usize, Full>
    requires { is_some (read_text (pick raw [] v.now)) ≡ true }
    ensures { Puts out.old (string_piece i raw v.now) result out.new }
{
    let a = put_content(out, i)?;
    let b = put_value(&mut out[a..], raw, v)?;
    let ab = a + b;
    Ok(ab)
}

// ORG's name, where it is filled.
fn put_org_name(out: &mut [u8], i: usize, u: &[u8]) -> Result<usize, Full>
    requires { is_some (read_text u.now) ≡ true }
    ensures { Puts out.old (org_name i u.now) result out.new }
{
    if u.len() == 0 {
        return Ok(0);
    }
    put_string_member(out, i, false, u)
}

// The filled parts as units, where there are any.
fn put_units(out: &mut [u8], v: &[u8], k: usize) -> Result<usize, Full>
    requires { Readable (code ";") v.now }
    ensures { Puts out.old (units_piece k (keep filled (texts_of (code ";") v.now))) result out.new }
{
    let n = put_items(out, v, b';', &v[0..0], k, false)?;
    if n == 0 {
        return Ok(n);
    }
    let m = put_byte(&mut out[n..], b']')?;
    let nm = n + m;
    Ok(nm)
}

// The same of the parts after the one that ends at e.
fn put_units_after(out: &mut [u8], v: &[u8], e: usize, k: usize) -> Result<usize, Full>
    requires { Readable (code ";") v.now × PartEnds (code ";") v.now 0 e }
    ensures { Puts out.old (units_piece k (units_after v.now e)) result out.new }
{
    if e >= v.len() {
        return Ok(0);
    }
    let a = e + 1;
    put_units(out, &v[a..], k)
}

fn unit_kind(named: bool) -> usize
    ensures { result ≡ pick named 7 8 }
{
    if named {
        return parts::UNITS_AFTER;
    }
    parts::UNITS_ALONE
}

// ORG's name and units, split at bare semicolons.
fn put_org(out: &mut [u8], i: usize, v: &[u8]) -> Result<usize, Full>
    requires { Readable (code ";") v.now }
    ensures { Puts out.old (org_piece i (split_text (code ";") v.now)) result out.new }
{
    let e = part_end(v, 0, b';');
    let k = unit_kind(0 < e);
    let a = put_org_name(out, i, &v[0..e])?;
    let b = put_units_after(&mut out[a..], v, e, k)?;
    let ab = a + b;
    Ok(ab)
}

// The strings of an entry, by the row's form.
fn put_strings(out: &mut [u8], i: usize, form: usize, raw: bool, v: &[u8]) -> Result<usize, Full>
    requires { StringsSound form raw v.now }
    ensures { Puts out.old (strings_piece i form raw v.now) result out.new }
{
    if form == forms::ORGANIZATION {
        return put_org(out, i, v);
    }
    put_string_member(out, i, raw, v)
}

// An entry: its key, kind, strings, marks of TYPE, and PREF.
fn put_entry(
    out: &mut [u8],
    key: &[u8],
    kind: usize,
    i: usize,
    form: usize,
    raw: bool,
    v: &[u8],
    row: &[u8],
    p: &[u8],
) -> Result<usize, Full>
    requires { (type_count ≤ length row.now) × StringsSound form raw v.now }
    ensures { Puts out.old (entry_pieces key.now kind (strings_piece i form raw v.now) row.now p.now) result out.new }
{
    let a1 = put_name(out, key)?;
    let a2 = put_byte(&mut out[a1..], b'{')?;
    let b2 = a1 + a2;
    let a3 = put_kind(&mut out[b2..], kind)?;
    let b3 = b2 + a3;
    let a4 = put_strings(&mut out[b3..], i, form, raw, v)?;
    let b4 = b3 + a4;
    let a5 = put_flags(&mut out[b4..], row, 0, types::CONTEXTS)?;
    let b5 = b4 + a5;
    let a6 = put_flags(&mut out[b5..], row, types::CONTEXTS, types::COUNT)?;
    let b6 = b5 + a6;
    let a7 = put_pref(&mut out[b6..], p)?;
    let b7 = b6 + a7;
    let a8 = put_byte(&mut out[b7..], b'}')?;
    let b8 = b7 + a8;
    Ok(b8)
}

// The line of the map i, whose row of the table has that many values of TYPE and that form, as an entry with that key.
pub fn put_map_line(
    out: &mut [u8],
    s: &[u8],
    t: &[usize],
    rows: Rows<'_>,
    i: usize,
    types: usize,
    form: usize,
    kind: usize,
    key: &[u8],
) -> Result<usize, Full>
    requires { MapLine s.now t.now rows i types form }
    ensures { PutsEntry out.old s.now t.now i types form kind key.now result out.new }
{
    let vk = value_kind(rows, s);
    let raw = (form == forms::RAW) | ((form == forms::PHONE) & (vk == values::URI));
    let mut row = [0u8; types::COUNT];
    mark_rows(&mut row, s, t, types);
    let a = t[table::VALUE];
    let b = t[table::VALUE_END];
    let k = rows.counts[params::PREF];
    if k == 0 {
        return put_entry(out, key, kind, i, form, raw, &s[a..b], &row, &s[0..0]);
    }
    let c = rows.froms[params::PREF];
    let d = rows.tos[params::PREF];
    put_entry(out, key, kind, i, form, raw, &s[a..b], &row, &s[c..d])
}

// The kind of the entry that a line of a map becomes, by its name.
pub fn kind_of_line(s: &[u8], t: &[usize]) -> usize
    requires { Sound s.now t.now }
    ensures { KindOfLine s.now t.now result }
{
    let a = t[table::NAME];
    let b = t[table::NAME_END];
    if is_named(&s[a..b], &titles::TITLE_LINE) {
        return kinds::TITLE;
    }
    if is_named(&s[a..b], &titles::ROLE_LINE) {
        return kinds::ROLE;
    }
    kinds::NONE
}
