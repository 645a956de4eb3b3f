// The member `name` of a card: FN as full, N as components, straight from the lines' values.
#![tactic(auto)]

ghost use Rattle.std.specs.Prelude.{◌≡◌, true, false, ◌∷◌, [], ◌+◌, ◌≤◌, ◌<◌, length};
ghost use Rattle.text.specs.Choice.{is_some, pick};
ghost use Rattle.text.specs.Bytes.{ascii, code, flat};
ghost use Rattle.line.specs.Text.{read_text};
ghost use Rattle.json_text.specs.Compact.{quoted};
ghost use Rattle.output.specs.Put.{Puts};
ghost use Rattle.line_text.specs.Read.{plain_text};
ghost use Rattle.line_text.specs.Split.{PartEnds};
ghost use Rattle.to_json_items.specs.Items.{listed};
ghost use Rattle.card_table.specs.Numbers.{part_count};
ghost use Rattle.to_json_name.specs.Name.{PartFrom, other_part, values_of, components_from, NameSound, full_piece, parts_piece, NamesSound, name_bytes};

use card_table::{members, name, parts};
use convert_put::put_plain;
use line_text::part_end;
use output::{Full, put_byte, put_text};
use to_json_items::put_items;

// Where part k of N begins; a missing one at the end.
fn part_from(v: &[u8], k: usize) -> usize
    ensures { PartFrom v.now k result }
{
    let mut at = 0;
    for j in 0..k {
        let e = part_end(v, at, b';');
        if e >= v.len() {
            return v.len();
        }
        at = e + 1;
    }
    at
}

// The part whose values part k does not repeat, or none.
fn other_part(k: usize) -> usize
    ensures { result ≡ other_part k }
{
    if k == parts::SURNAME {
        return parts::SURNAME2;
    }
    if k == parts::CREDENTIAL {
        return parts::GENERATION;
    }
    parts::NONE
}

// The components of part k, which stands from a to b.
fn put_part(
    out: &mut [u8],
    v: &[u8],
    k: usize,
    a: usize,
    b: usize,
    begun: bool,
) -> Result<usize, Full>
    requires { NameSound v.now × PartFrom v.now k a × PartEnds (code ";") v.now a b }
    ensures { Puts out.old (listed k begun (values_of v.now k)) result out.new }
{
    let q = other_part(k);
    if q == parts::NONE {
        return put_items(out, &v[a..b], b',', &v[0..0], k, begun);
    }
    let c = part_from(v, q);
    let d = part_end(v, c, b';');
    put_items(out, &v[a..b], b',', &v[c..d], k, begun)
}

// Where the part after the one that ends at e begins; a missing one at the end.
fn part_after(v: &[u8], e: usize) -> usize
    ensures { (e < length v.now → result ≡ e + 1) × (length v.now ≤ e → result ≡ length v.now) }
{
    if e >= v.len() {
        return v.len();
    }
    e + 1
}

// The components of all seven parts.
fn put_parts(out: &mut [u8], v: &[u8]) -> Result<usize, Full>
    requires { NameSound v.now }
    ensures { Puts out.old (components_from part_count v.now 0 false) result out.new }
{
    let mut at = 0;
    let mut from = 0;
    let mut begun = false;
    for k in 0..parts::COUNT {
        let end = part_end(v, from, b';');
        let n = put_part(&mut out[at..], v, k, from, end, begun)?;
        at += n;
        begun = begun | (0 < n);
        from = part_after(v, end);
    }
    Ok(at)
}

// N's value as the array of components.
fn put_components(out: &mut [u8], v: &[u8]) -> Result<usize, Full>
    requires { NameSound v.now }
    ensures { Puts out.old (flat (ascii "[" ∷ components_from part_count v.now 0 false ∷ ascii "]" ∷ [])) result out.new }
{
    let a = put_byte(out, b'[')?;
    let b = put_parts(&mut out[a..], v)?;
    let ab = a + b;
    let c = put_byte(&mut out[ab..], b']')?;
    let abc = ab + c;
    Ok(abc)
}

fn put_full(out: &mut [u8], v: &[u8]) -> Result<usize, Full>
    requires { is_some (read_text v.now) ≡ true }
    ensures { Puts out.old (flat (ascii "\"full\":" ∷ quoted (plain_text v.now) [] ∷ [])) result out.new }
{
    let a = put_text(out, &name::FULL_HEAD)?;
    let b = put_plain(&mut out[a..], v)?;
    let ab = a + b;
    Ok(ab)
}

fn put_full_if(out: &mut [u8], full: bool, v: &[u8]) -> Result<usize, Full>
    requires { full ≡ true → is_some (read_text v.now) ≡ true }
    ensures { Puts out.old (full_piece full v.now) result out.new }
{
    if full {
        return put_full(out, v);
    }
    Ok(0)
}

fn put_parts_head(out: &mut [u8], full: bool) -> Result<usize, Full>
    ensures { Puts out.old (pick full (ascii ",\"components\":") (ascii "\"components\":")) result out.new }
{
    if full {
        return put_text(out, &name::COMPONENTS_AFTER);
    }
    put_text(out, &name::COMPONENTS_HEAD)
}

fn put_parts_member(out: &mut [u8], full: bool, v: &[u8]) -> Result<usize, Full>
    requires { NameSound v.now }
    ensures { Puts out.old (flat (pick full (ascii ",\"components\":") (ascii "\"components\":") ∷ flat (ascii "[" ∷ components_from part_count v.now 0 false ∷ ascii "]" ∷ []) ∷ [])) result out.new }
{
    let a = put_parts_head(out, full)?;
    let b = put_components(&mut out[a..], v)?;
    let ab = a + b;
    Ok(ab)
}

fn put_parts_if(out: &mut [u8], full: bool, parts: bool, v: &[u8]) -> Result<usize, Full>
    requires { parts ≡ true → NameSound v.now }
    ensures { Puts out.old (parts_piece full parts v.now) result out.new }
{
    if parts {
        return put_parts_member(out, full, v);
    }
    Ok(0)
}

fn put_name_member(
    out: &mut [u8],
    full: bool,
    fv: &[u8],
    parts: bool,
    nv: &[u8],
) -> Result<usize, Full>
    requires { NamesSound full fv.now parts nv.now }
    ensures { Puts out.old (flat (ascii ",\"name\":{" ∷ full_piece full fv.now ∷ parts_piece full parts nv.now ∷ ascii "}" ∷ [])) result out.new }
{
    let a = put_text(out, &members::NAME_HEAD)?;
    let b = put_full_if(&mut out[a..], full, fv)?;
    let ab = a + b;
    let c = put_parts_if(&mut out[ab..], full, parts, nv)?;
    let ac = ab + c;
    let d = put_byte(&mut out[ac..], b'}')?;
    let ad = ac + d;
    Ok(ad)
}

// The member `name`, from the value of the FN line that converts, if any, and that of the N line, if any.
pub fn put_name(
    out: &mut [u8],
    full: bool,
    fv: &[u8],
    parts: bool,
    nv: &[u8],
) -> Result<usize, Full>
    requires { NamesSound full fv.now parts nv.now }
    ensures { Puts out.old (name_bytes full fv.now parts nv.now) result out.new }
{
    if full | parts {
        return put_name_member(out, full, fv, parts, nv);
    }
    Ok(0)
}
