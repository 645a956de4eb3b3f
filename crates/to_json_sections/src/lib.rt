// The sections of a card's JSON besides the maps, from its classified lines.
#![tactic(auto)]

ghost use Rattle.std.specs.Prelude.{◌≡◌, ◌≤◌, length};
ghost use Rattle.from_card_lines.specs.Classified.{of_lines};
ghost use Rattle.output.specs.Put.{Puts};
ghost use Rattle.to_json_maps.specs.Maps.{HasLines};
ghost use Rattle.line_table.specs.Table.{table_length};
ghost use Rattle.to_json_sections.specs.Sections.{prop_head, HasKept, PutsProp, PutsProps, FirstOf, PutsStart, PutsKind};

use card_table::{classes, members};
use from_card_lines::ClassedLines;
use line_table::{fill, table};
use line_unfold::line_at;
use output::{Full, put_byte, put_text};
use to_json_head::{put_kind, put_start};
use to_json_kept::put_kept;
use to_json_maps::is_of;

fn put_prop_head(out: &mut [u8], begun: bool) -> Result<usize, Full>
    ensures { Puts out.old (prop_head begun) result out.new }
{
    if begun {
        return put_byte(out, b',');
    }
    put_text(out, &members::KEPT_HEAD)
}

// A kept line, after the member's name or a comma.
fn put_prop(out: &mut [u8], t: &mut [usize], s: &[u8], begun: bool) -> Result<usize, Full>
    requires { (table_length ≤ length t.old) × HasKept s.now }
    ensures { PutsProp out.old s.now begun result out.new }
{
    if !fill(t, s) {
        return Err(Full);
    }
    let a = put_prop_head(out, begun)?;
    let b = put_kept(&mut out[a..], s, t)?;
    let ab = a + b;
    Ok(ab)
}

// vCardProps: the kept lines, in their order.
pub fn put_props(out: &mut [u8], t: &mut [usize], lines: ClassedLines<'_>) -> Result<usize, Full>
    requires { (table_length ≤ length t.old) × of_lines HasLines lines }
    ensures { of_lines (PutsProps out.old) lines.entry result out.new }
{
    let mut at = 0;
    let mut begun = false;
    for k in 0..lines.count {
        if !is_of(lines.codes[k], classes::KEPT) {
            continue;
        }
        let s = line_at(lines.scratch, lines.starts, k);
        let m = put_prop(&mut out[at..], t, s, begun)?;
        at += m;
        begun = true;
    }
    if !begun {
        return Ok(at);
    }
    let m = put_byte(&mut out[at..], b']')?;
    let all = at + m;
    Ok(all)
}

// The first line whose class has that number, or n.
pub fn first_of(codes: &[u8], n: usize, q: usize) -> usize
    requires { n ≤ length codes.now }
    ensures { FirstOf codes.now n q result }
{
    for k in 0..n {
        if is_of(codes[k], q) {
            return k;
        }
    }
    n
}

// How the JSON begins: @type, version, and the UID as it stands or a made one.
pub fn put_start_of(
    out: &mut [u8],
    t: &mut [usize],
    stem: &[u8],
    number: usize,
    lines: ClassedLines<'_>,
) -> Result<usize, Full>
    requires { (table_length ≤ length t.old) × of_lines HasLines lines }
    ensures { of_lines (PutsStart out.old stem.now number) lines.entry result out.new }
{
    let k = first_of(lines.codes, lines.count, classes::UID);
    if k >= lines.count {
        return put_start(out, false, stem, stem, number);
    }
    let s = line_at(lines.scratch, lines.starts, k);
    if !fill(t, s) {
        return Err(Full);
    }
    let a = t[table::VALUE];
    let b = t[table::VALUE_END];
    put_start(out, true, &s[a..b], stem, number)
}

// The kind, where there is a KIND line.
pub fn put_kind_of(out: &mut [u8], t: &mut [usize], lines: ClassedLines<'_>) -> Result<usize, Full>
    requires { (table_length ≤ length t.old) × of_lines HasLines lines }
    ensures { of_lines (PutsKind out.old) lines.entry result out.new }
{
    let k = first_of(lines.codes, lines.count, classes::KIND);
    if k >= lines.count {
        return Ok(0);
    }
    let s = line_at(lines.scratch, lines.starts, k);
    if !fill(t, s) {
        return Err(Full);
    }
    let a = t[table::VALUE];
    let b = t[table::VALUE_END];
    put_kind(out, &s[a..b])
}
