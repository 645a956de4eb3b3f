// Lists of TEXT values as JSON, straight from a line's value: the components of a name, the units of an organization.
#![tactic(auto)]

ghost use Rattle.std.specs.Prelude.{◌≡◌, true, [], ◌≤◌, length};
ghost use Rattle.text.specs.Choice.{is_some, pick};
ghost use Rattle.text.specs.Bytes.{code, keep};
ghost use Rattle.line.specs.Text.{read_text};
ghost use Rattle.output.specs.Put.{Puts};
ghost use Rattle.line_text.specs.Read.{plain_text};
ghost use Rattle.convert_values.specs.Values.{texts_of, Readable, Noted};
ghost use Rattle.convert.specs.Answers.{card_room};
ghost use Rattle.to_json_items.specs.Items.{lead, item_head, item_piece, listed, is_own};

use card_table::parts;
use convert_put::put_plain;
use convert_values::{is_among, is_noted, note_values};
use line_limits::CARD;
use line_text::part_end;
use output::{Full, put_byte, put_text};

// A list of so many bytes is read for each value: it is not noted.
const SHORT: usize = 64;

// Whether a value is filled, and none of those of o, which may be noted.
fn is_own<'a, 'b, 'c>(
    u: &'a [u8],
    o: &'b [u8],
    noted: bool,
    places: &'c [u16],
    prints: &'c [u16],
) -> bool
    requires { (is_some (read_text u.now) ≡ true) × Readable (code ",") o.now × (noted ≡ true → Noted o.now places.now prints.now) }
    ensures { result ≡ is_own (texts_of (code ",") o.now) (plain_text u.now) }
{
    if u.len() == 0 {
        return false;
    }
    if o.len() == 0 {
        return true;
    }
    if noted {
        return !is_noted(u, o, places, prints);
    }
    !is_among(u, o)
}

fn put_lead(out: &mut [u8], k: usize) -> Result<usize, Full>
    ensures { Puts out.old (lead k) result out.new }
{
    if k == parts::SURNAME {
        return put_text(out, &parts::SURNAME_HEAD);
    }
    if k == parts::GIVEN {
        return put_text(out, &parts::GIVEN_HEAD);
    }
    if k == parts::GIVEN2 {
        return put_text(out, &parts::GIVEN2_HEAD);
    }
    if k == parts::TITLE {
        return put_text(out, &parts::TITLE_HEAD);
    }
    if k == parts::CREDENTIAL {
        return put_text(out, &parts::CREDENTIAL_HEAD);
    }
    if k == parts::SURNAME2 {
        return put_text(out, &parts::SURNAME2_HEAD);
    }
    if k == parts::GENERATION {
        return put_text(out, &parts::GENERATION_HEAD);
    }
    put_text(out, &parts::UNIT_HEAD)
}

fn put_item_head(out: &mut [u8], begun: bool, k: usize) -> Result<usize, Full>
    ensures { Puts out.old (item_head begun k) result out.new }
{
    if begun {
        return put_byte(out, b',');
    }
    if k == parts::UNITS_AFTER {
        return put_text(out, &parts::UNITS_AFTER_HEAD);
    }
    if k == parts::UNITS_ALONE {
        return put_text(out, &parts::UNITS_ALONE_HEAD);
    }
    Ok(0)
}

fn put_item(out: &mut [u8], begun: bool, k: usize, u: &[u8]) -> Result<usize, Full>
    requires { is_some (read_text u.now) ≡ true }
    ensures { Puts out.old (item_piece begun k (plain_text u.now)) result out.new }
{
    let a = put_item_head(out, begun, k)?;
    let b = put_lead(&mut out[a..], k)?;
    let ab = a + b;
    let c = put_plain(&mut out[ab..], u)?;
    let ac = ab + c;
    let d = put_byte(&mut out[ac..], b'}')?;
    let ad = ac + d;
    Ok(ad)
}

fn put_item_if(out: &mut [u8], on: bool, begun: bool, k: usize, u: &[u8]) -> Result<usize, Full>
    requires { is_some (read_text u.now) ≡ true }
    ensures { Puts out.old (pick on (item_piece begun k (plain_text u.now)) []) result out.new }
{
    if on {
        return put_item(out, begun, k, u);
    }
    Ok(0)
}

// The values of v, split at bare separators d, as items of kind k: those that are filled and not among the values of o, which may be noted.
fn put_own<'a, 'b, 'c, 'd>(
    out: &'a mut [u8],
    v: &'b [u8],
    d: u8,
    o: &'c [u8],
    k: usize,
    begun: bool,
    noted: bool,
    places: &'d [u16],
    prints: &'d [u16],
) -> Result<usize, Full>
    requires { Readable d v.now × Readable (code ",") o.now × (noted ≡ true → Noted o.now places.now prints.now) }
    ensures { Puts out.old (listed k begun (keep (is_own (texts_of (code ",") o.now)) (texts_of d v.now))) result out.new }
{
    let mut at = 0;
    let mut i = 0;
    let mut some = begun;
    loop {
        let e = part_end(v, i, d);
        let on = is_own(&v[i..e], o, noted, places, prints);
        let n = put_item_if(&mut out[at..], on, some, k, &v[i..e])?;
        at += n;
        if e >= v.len() {
            return Ok(at);
        }
        some = some | on;
        i = e + 1;
    }
}

// The same where o is long: its values are noted once, and not read again for each of v.
fn put_noted(
    out: &mut [u8],
    v: &[u8],
    d: u8,
    o: &[u8],
    k: usize,
    begun: bool,
) -> Result<usize, Full>
    requires { Readable d v.now × Readable (code ",") o.now × (length o.now ≤ card_room) }
    ensures { Puts out.old (listed k begun (keep (is_own (texts_of (code ",") o.now)) (texts_of d v.now))) result out.new }
{
    let mut places = [0u16; CARD / 2];
    let mut prints = [0u16; CARD / 2];
    let n = note_values(o, &mut places, &mut prints);
    put_own(out, v, d, o, k, begun, true, &places[0..n], &prints[0..n])
}

// The values of v, split at bare separators d, as items of kind k: those that are filled and not among the values of o. Nearly always o is short,
// and read for each value of v.
pub fn put_items(
    out: &mut [u8],
    v: &[u8],
    d: u8,
    o: &[u8],
    k: usize,
    begun: bool,
) -> Result<usize, Full>
    requires { Readable d v.now × Readable (code ",") o.now }
    ensures { Puts out.old (listed k begun (keep (is_own (texts_of (code ",") o.now)) (texts_of d v.now))) result out.new }
{
    if (SHORT < o.len()) & (o.len() <= CARD) {
        // Two calls: so the compiler keeps put_noted apart, and its 64 KiB of stack are taken only here.
        if begun {
            return put_noted(out, v, d, o, k, true);
        }
        return put_noted(out, v, d, o, k, false);
    }
    let none = [0u16; 1];
    // The answer is made anew: so it goes over in two halves, as it was just stored, and not as a whole that would wait for them.
    let n = put_own(out, v, d, o, k, begun, false, &none, &none)?;
    Ok(n)
}
