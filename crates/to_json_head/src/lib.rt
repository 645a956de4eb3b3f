// How a card's JSON begins: @type, version, uid, kind.
#![tactic(auto)]

ghost use Rattle.std.specs.Prelude.{◌∷◌, []};
ghost use Rattle.text.specs.Bytes.{ascii, flat, lowered};
ghost use Rattle.json_text.specs.Compact.{quoted};
ghost use Rattle.output.specs.Put.{Puts};
ghost use Rattle.convert.specs.FromCard.{made_uid};
ghost use Rattle.to_json_head.specs.Head.{uid_of, start_bytes, kind_bytes};

use card_table::members;
use json_write::{put_number, put_spelled, put_string};
use output::{Full, put_byte, put_text};
use to_json_kept_values::put_lower;

// A made uid: the stem, a hyphen, the card's number.
fn put_made_uid(out: &mut [u8], stem: &[u8], number: usize) -> Result<usize, Full>
    ensures { Puts out.old (quoted (made_uid stem.now number) []) result out.new }
{
    let a = put_byte(out, b'"')?;
    let b = put_spelled(&mut out[a..], stem)?;
    let ab = a + b;
    let c = put_byte(&mut out[ab..], b'-')?;
    let ac = ab + c;
    let d = put_number(&mut out[ac..], number)?;
    let ad = ac + d;
    let e = put_byte(&mut out[ad..], b'"')?;
    let ae = ad + e;
    Ok(ae)
}

// The value of UID as it stands, or a made one.
fn put_uid(
    out: &mut [u8],
    given: bool,
    uid: &[u8],
    stem: &[u8],
    number: usize,
) -> Result<usize, Full>
    ensures { Puts out.old (quoted (uid_of given uid.now stem.now number) []) result out.new }
{
    if given {
        return put_string(out, uid);
    }
    put_made_uid(out, stem, number)
}

// All that stands before the kind.
pub fn put_start(
    out: &mut [u8],
    given: bool,
    uid: &[u8],
    stem: &[u8],
    number: usize,
) -> Result<usize, Full>
    ensures { Puts out.old (start_bytes (uid_of given uid.now stem.now number)) result out.new }
{
    let a = put_text(out, &members::START)?;
    let b = put_uid(&mut out[a..], given, uid, stem, number)?;
    let ab = a + b;
    Ok(ab)
}

fn put_kind_member(out: &mut [u8], v: &[u8]) -> Result<usize, Full>
    ensures { Puts out.old (flat (ascii ",\"kind\":" ∷ quoted (lowered v.now) [] ∷ [])) result out.new }
{
    let a = put_text(out, &members::KIND_HEAD)?;
    let b = put_lower(&mut out[a..], v)?;
    let ab = a + b;
    Ok(ab)
}

// The value of KIND in lower case; nothing where it is empty, as for a card without KIND.
pub fn put_kind(out: &mut [u8], v: &[u8]) -> Result<usize, Full>
    ensures { Puts out.old (kind_bytes v.now) result out.new }
{
    if v.len() == 0 {
        return Ok(0);
    }
    put_kind_member(out, v)
}
