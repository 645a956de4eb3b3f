// The look-up service: a top-level member's value as that very part of the caller's JSON.
#![tactic(auto)]

ghost use Rattle.std.specs.Prelude.{◌≡◌, ◌≤◌, length};
ghost use Rattle.json_text.specs.Lookup.{look_up, part_of};
ghost use Rattle.json_lookup.specs.Finds.{Bounds, FindsIn, place_of, stands_at};
ghost use Rattle.json_lookup.specs.Held.{value_of, Holds};

use json_access::Part;
use json_limits::DEPTH;
use json_read::read;
use json_skip::skip_value;
use json_strings::equals;
use json_walk::{Member, first_member, next_member};

// The value of the first member of that name in a text that is JSON. Nothing is found where the part is empty.
fn find_in(s: &[u8], name: &[u8]) -> Part
    ensures bounds { Bounds (length s.now) result }
    ensures finds_in { FindsIn s.now name.now result }
{
    let mut m = first_member(s, 0);
    loop {
        let Member::At { name: q, start: a } = m else {
            return Part { start: 0, end: 0 };
        };
        let e = skip_value(s, a);
        if equals(s, q, name) {
            return Part { start: a, end: e };
        }
        m = next_member(s, e);
    }
}

// From where to where that value stands; 0 to 0 where there is none.
pub fn locate(s: &[u8], name: &[u8]) -> Part
    ensures bounds { Bounds (length s.now) result }
    ensures value { result ≡ place_of (look_up s.now name.now) }
{
    match read(s, DEPTH) {
        Ok(_) => find_in(s, name),
        Err(_) => Part { start: 0, end: 0 },
    }
}

// The value of the top-level member of that name, as that very part of the caller's text: its bytes, the place in memory where they stand, and,
// read alone, the value that the text's tree has there. Empty where the text is over 65,536 bytes, no JSON, no object, or has no such member.
pub fn look_up<'a, 'b>(json: &'a [u8], name: &'b [u8]) -> &'a [u8]
    ensures result_value { result.now ≡ part_of json.now (look_up json.now name.now) }
    ensures ref_ptr_value { result.ref_ptr ≡ stands_at json.entry.ref_ptr (look_up json.now name.now) }
    ensures holds { Holds result.now (value_of json.now name.now) }
{
    let p = locate(json, name);
    let a = p.start;
    let e = p.end;
    &json[a..e]
}
