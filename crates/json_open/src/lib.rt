// The validating reader of a text whose top-level object is wanted by a list of names: its members are indexed while they are read, in one pass over the text.
#![tactic(auto)]

ghost use Rattle.std.specs.Prelude.{◌≡◌, [], ◌+◌, ◌*◌, ◌≤◌, ◌<◌, length, drop};
ghost use Rattle.text.specs.Bytes.{code, parts};
ghost use Rattle.json_text.specs.Syntax.{pairs, value};
ghost use Rattle.json_text.specs.Read.{reading};
ghost use Rattle.json_strings.specs.Decoded.{decoded_at};
ghost use Rattle.json_sound.specs.Sound.{sound_members, Judged, Onward};
ghost use Rattle.json_index.specs.Index.{placed, noted, Clear};
ghost use Rattle.json_read.specs.Verdict.{verdict_of, verdict, InWords};
ghost use Rattle.json_text.specs.Lookup.{room};
ghost use Rattle.json_open.specs.Opened.{as_verdict, answered, IndexedIf, Opens};

use json_index::which_name;
use json_limits::{DEPTH, INNER, ROOM};
use json_marks::{separator, skip_space};
use json_read::{Fault, verdict_on};
use json_scan::{members_after, members_after_name};
use json_sound::{Sounded, note_name, sound, sound_value, unsound};
use std::ops::ControlFlow;
use text::{LEFT_BRACE, RIGHT_BRACE, look};

// What a text that is JSON is: an object, or no object.
#[derive(Clone, Copy)]
pub enum Opened {
    Object,
    Other,
}

// What is answered on a text of a verdict: the answer given, where it is JSON.
fn answer(v: Result<(), Fault>, o: Opened) -> Result<Opened, Fault>
    ensures { result ≡ answered v o }
{
    v?;
    Ok(o)
}

// Notes where the value of a member stands, in the slot of its name, where none is noted there yet.
fn note_member(slots: &mut [usize], s: &[u8], name: usize, value: usize, names: &[u8])
    requires { length (parts (code ",") names.now) < length slots.old }
    ensures { slots.new ≡ noted slots.old (placed (decoded_at s.now name) (parts (code ",") names.now)) value }
{
    let k = which_name(s, name, names);
    if slots[k] == 0 {
        slots[k] = value;
    }
}

// The members of the top-level object, from after the byte that opens it: as `json_sound` reads those of any object, and each is noted in its slot.
fn sound_members<'a, 'b, 'c, 'd>(
    slots: &'a mut [usize],
    s: &'b [u8],
    at: usize,
    depth: usize,
    names: &'c [u8],
    places: &'d mut [u16],
    prints: &'d mut [u16],
) -> Result<Sounded, usize>
    requires at_in_bounds { at ≤ length s.now }
    requires s_len_bound { length s.now ≤ room }
    requires s_len_bound_2 { length s.now < at + 4 * length places.old }
    requires prints_len { length prints.old ≡ length places.old }
    requires names_in_bounds { length (parts (code ",") names.now) < length slots.old }
    requires clear { Clear slots.old }
    ensures judged { Judged s.now (pairs (value depth) (drop at s.now)) (sound_members []) result }
    ensures onward { Onward at (length s.now) result }
    ensures indexed_if { IndexedIf depth s.now at names.now slots.new result }
{
    let from = skip_space(s, at);
    if look(s, from) == RIGHT_BRACE {
        return Ok(Sounded::Sound(from + 1));
    }
    let mut i = from;
    let mut k = 0;
    loop {
        match note_name(s, i, places, prints, k)? {
            Sounded::Sound(v) => {
                let q = places[k] as usize;
                note_member(slots, s, q, v, names);
                k += 1;
                match sound_value(s, v, depth, &mut places[k..], &mut prints[k..])? {
                    Sounded::Sound(e) => match separator(s, e, RIGHT_BRACE) {
                        ControlFlow::Continue(j) => {
                            i = j;
                        }
                        ControlFlow::Break(r) => {
                            return sound(r);
                        }
                    },
                    Sounded::Unsound(e) => {
                        return unsound(members_after(s, e, depth));
                    }
                }
            }
            Sounded::Unsound(v) => {
                return unsound(members_after_name(s, v, depth));
            }
        }
    }
}

// A value and nothing but white space around it, by its first byte.
fn read_in<'a, 'b, 'c, 'd>(
    slots: &'a mut [usize],
    s: &'b [u8],
    names: &'c [u8],
    places: &'d mut [u16],
    prints: &'d mut [u16],
) -> Result<Opened, Fault>
    requires s_len_bound { length s.now ≤ room }
    requires s_len_bound_2 { length s.now ≤ 4 * length places.old }
    requires prints_len { length prints.old ≡ length places.old }
    requires names_in_bounds { length (parts (code ",") names.now) < length slots.old }
    requires clear { Clear slots.old }
    ensures result_value { as_verdict result ≡ verdict_of (reading 16 s.now) }
    ensures opens { Opens s.now names.now slots.new result }
{
    let i = skip_space(s, 0);
    if look(s, i) == LEFT_BRACE {
        let r = sound_members(slots, s, i + 1, INNER, names, places, prints);
        return answer(verdict_on(s, r), Opened::Object);
    }
    let r = sound_value(s, 0, DEPTH, places, prints);
    answer(verdict_on(s, r), Opened::Other)
}

// The verdict of `json_read::read` at depth 16; and where the text is an object, the slots are its index, as `json_index::index_object` makes it. Names of the
// open objects are noted in what is lent: each takes four bytes of the text at least.
pub fn read_indexed<'a, 'b, 'c, 'd>(
    slots: &'a mut [usize],
    s: &'b [u8],
    names: &'c [u8],
    places: &'d mut [u16],
    prints: &'d mut [u16],
) -> Result<Opened, Fault>
    requires s_len_bound { length s.now ≤ 4 * length places.old }
    requires prints_len { length prints.old ≡ length places.old }
    requires names_in_bounds { length (parts (code ",") names.now) < length slots.old }
    requires clear { Clear slots.old }
    ensures result_value { as_verdict result ≡ verdict 16 s.now }
    ensures in_words { InWords 16 s.now (as_verdict result) }
    ensures opens { Opens s.now names.now slots.new result }
{
    if s.len() > ROOM {
        return Err(Fault::Large);
    }
    read_in(slots, s, names, places, prints)
}
