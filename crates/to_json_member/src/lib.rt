// A JSPROP line that converts, written as a top-level member.
#![tactic(auto)]

ghost use Rattle.std.specs.Prelude.{◌≡◌, ◌∷◌, [], ◌≤◌, length};
ghost use Rattle.text.specs.Bytes.{ascii, flat};
ghost use Rattle.json_text.specs.Compact.{spelled_all};
ghost use Rattle.output.specs.Put.{Puts};
ghost use Rattle.json_compact.specs.Squeezed.{squeezed};
ghost use Rattle.convert_pointer.specs.Name.{name_in, Pointing};
ghost use Rattle.to_json_member.specs.Line.{MemberLine, PutsMember};

use card_table::params;
use convert_params::Rows;
use convert_pointer::{pointer_byte, pointer_next};
use json_compact::put_compact;
use json_write::put_byte_spelled;
use line_table::table;
use line_text::read_text;
use output::{Full, put_byte, put_text};

// The name that a pointer spells, as JSON without quotes.
fn spell_pointer(out: &mut [u8], p: &[u8]) -> Result<usize, Full>
    requires { Pointing p.now }
    ensures { Puts out.old (spelled_all (name_in p.now)) result out.new }
{
    let mut at = 0;
    let mut i = 0;
    while i < p.len() {
        let b = pointer_byte(p, i);
        let n = put_byte_spelled(&mut out[at..], b)?;
        at += n;
        i = pointer_next(p, i);
    }
    Ok(at)
}

// The member: the name from its pointer, the value from its JSON text.
fn put_pointed(out: &mut [u8], p: &[u8], text: &[u8]) -> Result<usize, Full>
    requires { Pointing p.now }
    ensures { Puts out.old (flat (ascii "\"" ∷ spelled_all (name_in p.now) ∷ ascii "\":" ∷ squeezed text.now ∷ [])) result out.new }
{
    let a = put_byte(out, b'"')?;
    let b = spell_pointer(&mut out[a..], p)?;
    let ab = a + b;
    let c = put_text(&mut out[ab..], b"\":")?;
    let ac = ab + c;
    let d = put_compact(&mut out[ac..], text)?;
    let ad = ac + d;
    Ok(ad)
}

// The line's value is read as TEXT into the scratch, which is at least as long as the line.
pub fn put_member_line(
    out: &mut [u8],
    scratch: &mut [u8],
    s: &[u8],
    t: &[usize],
    rows: Rows<'_>,
) -> Result<usize, Full>
    requires { MemberLine s.now t.now rows × (length s.now ≤ length scratch.old) }
    ensures { PutsMember out.old s.now t.now result out.new }
{
    let a = t[table::VALUE];
    let b = t[table::VALUE_END];
    let k = read_text(scratch, &s[a..b])?;
    let c = rows.froms[params::JSPTR];
    let d = rows.tos[params::JSPTR];
    put_pointed(out, &s[c..d], &scratch[0..k])
}
