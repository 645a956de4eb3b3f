// A kept line as an entry of vCardProps, straight from the line's table: name, parameters, type, value.
#![tactic(auto)]

ghost use Rattle.std.specs.Prelude.{◌≡◌, ◌∷◌, [], map, ◌<◌, get_or};
ghost use Rattle.text.specs.Choice.{pick};
ghost use Rattle.text.specs.Bytes.{ascii, flat, same, lowered};
ghost use Rattle.json_text.specs.Compact.{quoted, written};
ghost use Rattle.line.specs.Params.{value_type};
ghost use Rattle.convert.specs.FromCard.{kept_line};
ghost use Rattle.convert.specs.ToJson.{kept_json, param_json};
ghost use Rattle.output.specs.Put.{Puts};
ghost use Rattle.line_table.specs.Table.{part, Span, Sound, name_at, line_in};
ghost use Rattle.to_json_kept_values.specs.Kept.{has_member};
ghost use Rattle.convert_put.specs.Pieces.{inside};
ghost use Rattle.to_json_kept.specs.Entry.{param_piece, group_piece, head_piece, tail_piece, ValueRow};

use card_table::{kept, params};
use json_write::put_string;
use line_name::is_named;
use line_table::table;
use output::{Full, put_byte, put_text};
use to_json_kept_values::{is_first, put_lower, put_values};

fn put_comma(out: &mut [u8], begun: bool) -> Result<usize, Full>
    ensures { Puts out.old (pick begun (ascii ",") []) result out.new }
{
    if begun {
        return put_byte(out, b',');
    }
    Ok(0)
}

// The parameter whose name stands from a to b: one string, or an array of all values of that name.
fn put_param(
    out: &mut [u8],
    begun: bool,
    s: &[u8],
    t: &[usize],
    a: usize,
    b: usize,
) -> Result<usize, Full>
    requires { Sound s.now t.now × Span s.now a b }
    ensures { Puts out.old (param_piece begun s.now t.now (part s.now a b)) result out.new }
{
    let c = put_comma(out, begun)?;
    let d = put_lower(&mut out[c..], &s[a..b])?;
    let cd = c + d;
    let e = put_byte(&mut out[cd..], b':')?;
    let ce = cd + e;
    let f = put_values(&mut out[ce..], s, t, a, b)?;
    let cf = ce + f;
    Ok(cf)
}

fn put_param_if(
    out: &mut [u8],
    on: bool,
    begun: bool,
    s: &[u8],
    t: &[usize],
    a: usize,
    b: usize,
) -> Result<usize, Full>
    requires { Sound s.now t.now × Span s.now a b }
    ensures { Puts out.old (pick on (param_piece begun s.now t.now (part s.now a b)) []) result out.new }
{
    if on {
        return put_param(out, begun, s, t, a, b);
    }
    Ok(0)
}

fn is_value(s: &[u8], t: &[usize], k: usize) -> bool
    requires { Sound s.now t.now × (k < get_or t.now 6 0) }
    ensures { result ≡ same (lowered (name_at s.now t.now k)) (ascii "value") }
{
    let i = table::ROW * k + table::ROWS;
    let a = t[i];
    let b = t[i + table::ROW_NAME_END];
    is_named(&s[a..b], &params::VALUE_NAME)
}

// Whether the row k begins a parameter of the entry: it is not VALUE, and the first of its name.
fn is_param(s: &[u8], t: &[usize], k: usize) -> bool
    requires { Sound s.now t.now × (k < get_or t.now 6 0) }
    ensures { result ≡ has_member s.now t.now k }
{
    if is_value(s, t, k) {
        return false;
    }
    is_first(s, t, k)
}

// The parameters, merged by name in the order in which the names first come, without VALUE. The flag says that the group came before.
fn put_params(out: &mut [u8], grouped: bool, s: &[u8], t: &[usize]) -> Result<usize, Full>
    requires { Sound s.now t.now }
    ensures { Puts out.old (inside grouped (map param_json (kept_line (line_in s.now t.now)).params)) result out.new }
{
    let n = t[table::COUNT];
    let mut at = 0;
    let mut begun = grouped;
    for k in 0..n {
        let on = is_param(s, t, k);
        let i = table::ROW * k + table::ROWS;
        let a = t[i];
        let b = t[i + table::ROW_NAME_END];
        let m = put_param_if(&mut out[at..], on, begun, s, t, a, b)?;
        at += m;
        begun = begun | on;
    }
    Ok(at)
}

// The row of the first VALUE, or the number of rows.
fn value_row(s: &[u8], t: &[usize]) -> usize
    requires { Sound s.now t.now }
    ensures { ValueRow s.now t.now result }
{
    let n = t[table::COUNT];
    let mut k: usize = 0;
    while k < n {
        if is_value(s, t, k) {
            return k;
        }
        k += 1;
    }
    k
}

// VALUE in lower case, or "unknown".
fn put_type(out: &mut [u8], s: &[u8], t: &[usize]) -> Result<usize, Full>
    requires { Sound s.now t.now }
    ensures { Puts out.old (quoted (value_type (line_in s.now t.now).params) []) result out.new }
{
    let k = value_row(s, t);
    if k >= t[table::COUNT] {
        return put_text(out, &kept::UNKNOWN);
    }
    let i = table::ROW * k + table::ROWS;
    let a = t[i + table::ROW_VALUE];
    let b = t[i + table::ROW_VALUE_END];
    put_lower(out, &s[a..b])
}

fn put_group_member(out: &mut [u8], g: &[u8]) -> Result<usize, Full>
    ensures { Puts out.old (flat (ascii "\"group\":" ∷ quoted (lowered g.now) [] ∷ [])) result out.new }
{
    let a = put_text(out, &kept::GROUP_HEAD)?;
    let b = put_lower(&mut out[a..], g)?;
    let ab = a + b;
    Ok(ab)
}

fn put_group(out: &mut [u8], g: &[u8]) -> Result<usize, Full>
    ensures { Puts out.old (group_piece g.now) result out.new }
{
    if g.len() == 0 {
        return Ok(0);
    }
    put_group_member(out, g)
}

// `["name",{` and the group.
fn put_head(out: &mut [u8], name: &[u8], group: &[u8]) -> Result<usize, Full>
    ensures { Puts out.old (head_piece name.now group.now) result out.new }
{
    let a = put_byte(out, b'[')?;
    let b = put_lower(&mut out[a..], name)?;
    let ab = a + b;
    let c = put_text(&mut out[ab..], b",{")?;
    let ac = ab + c;
    let d = put_group(&mut out[ac..], group)?;
    let ad = ac + d;
    Ok(ad)
}

// `},`, the type and the value.
fn put_tail(out: &mut [u8], value: &[u8], s: &[u8], t: &[usize]) -> Result<usize, Full>
    requires { Sound s.now t.now }
    ensures { Puts out.old (tail_piece s.now t.now value.now) result out.new }
{
    let a = put_text(out, b"},")?;
    let b = put_type(&mut out[a..], s, t)?;
    let ab = a + b;
    let c = put_byte(&mut out[ab..], b',')?;
    let ac = ab + c;
    let d = put_string(&mut out[ac..], value)?;
    let ad = ac + d;
    let e = put_byte(&mut out[ad..], b']')?;
    let ae = ad + e;
    Ok(ae)
}

// The entry of vCardProps that a kept line becomes.
pub fn put_kept(out: &mut [u8], s: &[u8], t: &[usize]) -> Result<usize, Full>
    requires { Sound s.now t.now }
    ensures { Puts out.old (written (kept_json (kept_line (line_in s.now t.now))) []) result out.new }
{
    let a = t[table::NAME];
    let b = t[table::NAME_END];
    let c = t[table::GROUP];
    let d = t[table::GROUP_END];
    let x = put_head(out, &s[a..b], &s[c..d])?;
    let y = put_params(&mut out[x..], c < d, s, t)?;
    let xy = x + y;
    let e = t[table::VALUE];
    let f = t[table::VALUE_END];
    let z = put_tail(&mut out[xy..], &s[e..f], s, t)?;
    let xyz = xy + z;
    Ok(xyz)
}
