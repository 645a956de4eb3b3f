// JSON to card: the service.
#![tactic(auto)]

ghost use Rattle.std.specs.Prelude.{◌≡◌, true, ◌*◌, ◌≤◌, length};
ghost use Rattle.json_text.specs.Read.{reading};
ghost use Rattle.json_index.specs.Index.{Clear, Indexes};
ghost use Rattle.json_open.specs.Opened.{as_verdict, Opens};
ghost use Rattle.json_read.specs.Verdict.{verdict, InWords};
ghost use Rattle.convert.specs.Answers.{json_room};
ghost use Rattle.served.specs.Served.{Serves};
ghost use Rattle.services.specs.Promises.{JsonGives};
ghost use Rattle.to_card_kept.specs.Kept.{LentText, Lent};
ghost use Rattle.to_card_card.specs.Whole.{card_names};
ghost use Rattle.json_to_card.specs.Inner.{Reads, inner, becomes, fit};
ghost use Rattle.json_to_card.specs.Making.{Makes, ServesIf};
ghost use Rattle.json_to_card.specs.Opened.{OpensCard};

use card_table::members;
use json_limits::{NAME, NAMES, ROOM};
use json_open::{Opened, read_indexed};
use json_read::Fault;
use line_limits::{LINES, OVER};
use line_table::table;
use served::{Refusal, Unmade};
use served_put::put_served;
use to_card_card::put_card;
use to_card_lines::Lines;

// Sizes of texts that have scratch of their own, and how many names such texts have at most.
const TINY: usize = 2048;

const TINY_NAMES: usize = TINY / NAME;

const SMALL: usize = 4096;

const SMALL_NAMES: usize = SMALL / NAME;

// The length of a card at the front of a result; or a refusal; or the card fills the result, and may be longer. 12, 13, 3 (lines), else the card. All that is lent but `result` is scratch.
fn convert(
    res: &mut [u8],
    buffer: &mut [u8],
    b: &mut [u8],
    t: &mut [usize],
    scratch: &mut [u8],
    json: &[u8],
    slots: &[usize],
) -> Result<usize, Unmade>
    requires reads { Reads json.now }
    requires res_in_bounds { length res.old ≤ length buffer.old }
    requires lent { Lent b.old t.old scratch.old json.now slots.now }
    requires indexes { Indexes 15 json.now 0 card_names slots.now true }
    ensures { Makes (inner (reading 16 json.now)) res.old result res.new }
{
    let Ok(
        Lines {
            bytes: n,
            lines: k,
            carries: ok,
        },
    ) = put_card(res, buffer, b, t, scratch, json, slots)
    else {
        return Err(Unmade::Refused(Refusal {
            number: 12,
            place: 0,
        }));
    };
    if !ok {
        return Err(Unmade::Refused(Refusal {
            number: 13,
            place: 0,
        }));
    }
    if k > LINES {
        return Err(Unmade::Refused(Refusal {
            number: 3,
            place: 0,
        }));
    }
    if n >= res.len() {
        return Err(Unmade::Full);
    }
    Ok(n)
}

// The text, read, and its members by the reserved names. Names are noted in the last two.
fn read_members<'a, 'b, 'c>(
    slots: &'a mut [usize],
    json: &'b [u8],
    places: &'c mut [u16],
    prints: &'c mut [u16],
) -> Result<Opened, Fault>
    requires slots_len { length slots.old ≡ 14 }
    requires clear { Clear slots.old }
    requires json_len_bound { length json.now ≤ 4 * length places.old }
    requires prints_len { length prints.old ≡ length places.old }
    ensures result_value { as_verdict result ≡ verdict 16 json.now }
    ensures in_words { InWords 16 json.now (as_verdict result) }
    ensures opens { Opens json.now card_names slots.new result }
{
    read_indexed(slots, json, &members::NAMES, places, prints)
}

// The same where the text is an object; else its refusal: 3 for a long text, 11, or 12.
fn open_members<'a, 'b, 'c>(
    slots: &'a mut [usize],
    json: &'b [u8],
    places: &'c mut [u16],
    prints: &'c mut [u16],
) -> Result<(), Refusal>
    requires slots_len { length slots.old ≡ 14 }
    requires clear { Clear slots.old }
    requires json_len_bound { length json.now ≤ 4 * length places.old }
    requires prints_len { length prints.old ≡ length places.old }
    ensures { OpensCard json.now slots.new result }
{
    match read_members(slots, json, places, prints) {
        Ok(Opened::Object) => Ok(()),
        Ok(Opened::Other) => Err(Refusal {
            number: 12,
            place: 0,
        }),
        Err(Fault::Large) => Err(Refusal {
            number: 3,
            place: 0,
        }),
        Err(Fault::NotJson(p)) => Err(Refusal {
            number: 11,
            place: p,
        }),
    }
}

// Scratch for every text that has room: 65,536 bytes, and a result of one byte more than a card's 32,768.
fn convert_long(out: &mut [u8], json: &[u8], slots: &[usize]) -> Result<usize, Refusal>
    requires reads { Reads json.now }
    requires json_len_bound { length json.now ≤ json_room }
    requires in_bounds { 14 ≤ length slots.now }
    requires indexes { Indexes 15 json.now 0 card_names slots.now true }
    ensures { Serves out.old (fit (length out.old) (inner (reading 16 json.now))) result out.new }
{
    let mut result = [0u8; OVER];
    let mut buffer = [0u8; OVER];
    let mut b = [0u8; ROOM];
    let mut t = [0usize; table::LENGTH];
    let mut scratch = [0u8; ROOM];
    let n = json.len();
    match convert(
        &mut result,
        &mut buffer,
        &mut b[0..n],
        &mut t,
        &mut scratch,
        json,
        slots,
    ) {
        Err(Unmade::Refused(r)) => {
            return Err(r);
        }
        Err(Unmade::Full) => {
            return Err(Refusal {
                number: 3,
                place: 0,
            });
        }
        Ok(k) => {
            return put_served(out, &result[0..k]);
        }
    }
}

// 3 for a long text, 11, 12 where it is no object, then what its members say. A long text is read before the scratch of a long card is cleared.
// Not inlined: else its scratch stood on the stack of a call with a short text too.
#[inline(never)]
fn large(out: &mut [u8], json: &[u8]) -> Result<usize, Refusal>
    requires { length json.now ≤ json_room }
    ensures { Serves out.old (fit (length out.old) (becomes json.now)) result out.new }
{
    let mut places = [0u16; NAMES];
    let mut prints = [0u16; NAMES];
    let mut slots = [0usize; members::SLOTS];
    open_members(&mut slots, json, &mut places, &mut prints)?;
    convert_long(out, json, &slots)
}

// The same with the scratch of a short text and a short card, which is lent at once.
fn make<'a, 'b, 'c, 'd, 'e, 'f, 'g>(
    res: &'a mut [u8],
    buffer: &'b mut [u8],
    b: &'c mut [u8],
    t: &'d mut [usize],
    scratch: &'e mut [u8],
    places: &'f mut [u16],
    prints: &'f mut [u16],
    json: &'g [u8],
) -> Result<usize, Unmade>
    requires res_in_bounds { length res.old ≤ length buffer.old }
    requires lent_text { LentText b.old t.old scratch.old json.now }
    requires json_len_bound { length json.now ≤ 4 * length places.old }
    requires prints_len { length prints.old ≡ length places.old }
    ensures { Makes (becomes json.now) res.old result res.new }
{
    let mut slots = [0usize; members::SLOTS];
    if let Err(r) = open_members(&mut slots, json, places, prints) {
        return Err(Unmade::Refused(r));
    }
    convert(res, buffer, b, t, scratch, json, &slots)
}

// The same, served from scratch of so many bytes, with room to note so many names: it is quick to clear. None where the card does not fit in it, and then nothing is written.
// Not inlined, as `large`.
#[inline(never)]
fn served_in<const BYTES: usize, const NOTED: usize>(
    out: &mut [u8],
    json: &[u8],
) -> Option<Result<usize, Refusal>>
    requires fits { length json.now ≤ BYTES }
    requires noted { BYTES ≡ 4 * NOTED }
    requires small { BYTES ≤ 32769 }
    ensures { ServesIf out.old (fit (length out.old) (becomes json.now)) result out.new }
{
    let mut result = [0u8; BYTES];
    let mut buffer = [0u8; BYTES];
    let mut b = [0u8; BYTES];
    let mut t = [0usize; table::LENGTH];
    let mut scratch = [0u8; BYTES];
    let mut places = [0u16; NOTED];
    let mut prints = [0u16; NOTED];
    let b = &mut b[..];
    let n = json.len();
    match make(
        &mut result,
        &mut buffer,
        &mut b[0..n],
        &mut t,
        &mut scratch,
        &mut places,
        &mut prints,
        json,
    ) {
        Err(Unmade::Refused(r)) => Some(Err(r)),
        Err(Unmade::Full) => None,
        Ok(k) => {
            let card = &result[..];
            Some(put_served(out, &card[0..k]))
        }
    }
}

// JSON to card. The scratch goes by the size of the text, and so does the stack that a call takes: most texts are short, and most cards shorter still. A card that is too long for its
// scratch is made again in the next larger one. A refusal leaves the lent output as it was.
pub fn json_to_card(json: &[u8], out: &mut [u8]) -> Result<usize, Refusal>
    ensures { JsonGives json.now out.old result out.new }
{
    if json.len() <= TINY {
        if let Some(served) = served_in::<TINY, TINY_NAMES>(out, json) {
            return served;
        }
    }
    if json.len() <= SMALL {
        if let Some(served) = served_in::<SMALL, SMALL_NAMES>(out, json) {
            return served;
        }
    }
    if json.len() > ROOM {
        return Err(Refusal {
            number: 3,
            place: 0,
        });
    }
    large(out, json)
}
