// Whether an object has a member of a name.
#![tactic(auto)]

ghost use Rattle.json_has.specs.Has.{HasMember};

use json_skip::skip_value;
use json_strings::equals;
use json_walk::{Member, first_member, next_member};

// Whether the value at a place is an object with that member; false past the end.
pub fn has_member(s: &[u8], at: usize, depth: usize, name: &[u8]) -> bool
    ensures { HasMember depth s.now at name.now result }
{
    let mut m = first_member(s, at);
    loop {
        let Member::At { name: q, start: a } = m else {
            return false;
        };
        if equals(s, q, name) {
            return true;
        }
        let e = skip_value(s, a);
        m = next_member(s, e);
    }
}
