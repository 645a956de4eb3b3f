// name, the members of JSPROP, and the whole JSON of a card's classified lines.
#![tactic(auto)]

ghost use Rattle.std.specs.Prelude.{◌≡◌, ◌≤◌, length};
ghost use Rattle.from_card_lines.specs.Classified.{of_lines};
ghost use Rattle.to_json_maps.specs.Maps.{HasLines};
ghost use Rattle.line_table.specs.Table.{table_length};
ghost use Rattle.to_json_card.specs.Card.{ValueOf, PutsName, HasMember, PutsMemberTurn, PutsMembers, Lent, PutsTop, PutsMiddle, PutsEnd, PutsRest, PutsCard};

use card_table::{classes, params};
use convert_params::Rows;
use from_card_lines::ClassedLines;
use line_table::{fill, table};
use line_unfold::line_at;
use output::{Full, put_byte};
use table_params::scan_rows;
use to_json_maps::{is_of, put_maps};
use to_json_member::put_member_line;
use to_json_name::put_name;
use to_json_sections::{first_of, put_kind_of, put_props, put_start_of};

// The value of a line; nothing where the bytes are no line.
fn value_of<'a, 'b>(t: &'b mut [usize], s: &'a [u8]) -> &'a [u8]
    requires { table_length ≤ length t.old }
    ensures { ValueOf s.now result.now }
{
    if !fill(t, s) {
        return &s[0..0];
    }
    let a = t[table::VALUE];
    let b = t[table::VALUE_END];
    &s[a..b]
}

// The name, from the first FN and the first N that convert.
fn put_name_of(out: &mut [u8], t: &mut [usize], lines: ClassedLines<'_>) -> Result<usize, Full>
    requires { (table_length ≤ length t.old) × of_lines HasLines lines }
    ensures { of_lines (PutsName out.old) lines.entry result out.new }
{
    let j = first_of(lines.codes, lines.count, classes::FULL);
    let k = first_of(lines.codes, lines.count, classes::PARTS);
    let fv = value_of(t, line_at(lines.scratch, lines.starts, j));
    let nv = value_of(t, line_at(lines.scratch, lines.starts, k));
    put_name(out, j < lines.count, fv, k < lines.count, nv)
}

// A member of JSPROP, after a comma.
fn put_member_turn(
    out: &mut [u8],
    t: &mut [usize],
    text: &mut [u8],
    s: &[u8],
) -> Result<usize, Full>
    requires { (table_length ≤ length t.old) × (length s.now ≤ length text.old) × HasMember s.now }
    ensures { PutsMemberTurn out.old s.now result out.new }
{
    let mut counts = [0usize; params::COUNT];
    let mut froms = [0usize; params::COUNT];
    let mut tos = [0usize; params::COUNT];
    if !fill(t, s) {
        return Err(Full);
    }
    scan_rows(&mut counts, &mut froms, &mut tos, s, t);
    let rows = Rows {
        counts: &counts,
        froms: &froms,
        tos: &tos,
    };
    let a = put_byte(out, b',')?;
    let b = put_member_line(&mut out[a..], text, s, t, rows)?;
    let ab = a + b;
    Ok(ab)
}

// The members of JSPROP, in the order of their lines.
fn put_members(
    out: &mut [u8],
    t: &mut [usize],
    text: &mut [u8],
    lines: ClassedLines<'_>,
) -> Result<usize, Full>
    requires { of_lines (Lent t.old text.old) lines }
    ensures { of_lines (PutsMembers out.old) lines.entry result out.new }
{
    let mut at = 0;
    for k in 0..lines.count {
        if !is_of(lines.codes[k], classes::MEMBER) {
            continue;
        }
        let s = line_at(lines.scratch, lines.starts, k);
        let m = put_member_turn(&mut out[at..], t, text, s)?;
        at += m;
    }
    Ok(at)
}

// @type, version, uid, kind and name.
fn put_top(
    out: &mut [u8],
    t: &mut [usize],
    stem: &[u8],
    number: usize,
    lines: ClassedLines<'_>,
) -> Result<usize, Full>
    requires { (table_length ≤ length t.old) × of_lines HasLines lines }
    ensures { of_lines (PutsTop out.old stem.now number) lines.entry result out.new }
{
    let a1 = put_start_of(out, t, stem, number, lines)?;
    let a2 = put_kind_of(&mut out[a1..], t, lines)?;
    let b2 = a1 + a2;
    let a3 = put_name_of(&mut out[b2..], t, lines)?;
    let b3 = b2 + a3;
    Ok(b3)
}

// The maps and the members of JSPROP.
fn put_middle(
    out: &mut [u8],
    t: &mut [usize],
    text: &mut [u8],
    lines: ClassedLines<'_>,
) -> Result<usize, Full>
    requires { of_lines (Lent t.old text.old) lines }
    ensures { of_lines (PutsMiddle out.old) lines.entry result out.new }
{
    let a1 = put_maps(out, t, lines)?;
    let a2 = put_members(&mut out[a1..], t, text, lines)?;
    let b2 = a1 + a2;
    Ok(b2)
}

// vCardProps, and the closing brace.
fn put_end(out: &mut [u8], t: &mut [usize], lines: ClassedLines<'_>) -> Result<usize, Full>
    requires { (table_length ≤ length t.old) × of_lines HasLines lines }
    ensures { of_lines (PutsEnd out.old) lines.entry result out.new }
{
    let a1 = put_props(out, t, lines)?;
    let a2 = put_byte(&mut out[a1..], b'}')?;
    let b2 = a1 + a2;
    Ok(b2)
}

// All that follows the name.
fn put_rest(
    out: &mut [u8],
    t: &mut [usize],
    text: &mut [u8],
    lines: ClassedLines<'_>,
) -> Result<usize, Full>
    requires { of_lines (Lent t.old text.old) lines }
    ensures { of_lines (PutsRest out.old) lines.entry result out.new }
{
    let a1 = put_middle(out, t, text, lines)?;
    let a2 = put_end(&mut out[a1..], t, lines)?;
    let b2 = a1 + a2;
    Ok(b2)
}

// The JSON of a card: its sections, one after the other.
pub fn put_card(
    out: &mut [u8],
    t: &mut [usize],
    text: &mut [u8],
    stem: &[u8],
    number: usize,
    lines: ClassedLines<'_>,
) -> Result<usize, Full>
    requires { of_lines (Lent t.old text.old) lines }
    ensures { of_lines (PutsCard out.old stem.now number) lines.entry result out.new }
{
    let a1 = put_top(out, t, stem, number, lines)?;
    let a2 = put_rest(&mut out[a1..], t, text, lines)?;
    let b2 = a1 + a2;
    Ok(b2)
}
