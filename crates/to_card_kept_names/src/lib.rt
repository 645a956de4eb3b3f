// The names of a JSON card's maps and members, noted once by their places and prints: then whether one is there is asked without a walk over the text.
#![tactic(auto)]

ghost use Rattle.std.specs.Prelude.{◌≡◌, ◌≤◌, ◌<◌, length, take};
ghost use Rattle.card_table.specs.Numbers.{group_count, map_slots};
ghost use Rattle.to_card_kept_names.specs.Groups.{NotesName, NotedIn, NotesNames, NotesGroup, Indexes, HasName};

use card_table::{maps, members};
use json_has::has_member;
use json_prints::{is_key_noted, print_from};
use json_skip::skip_value;
use json_walk::{Member, first_member, next_member};

// The name at a place, noted in the row k, or not: there was no row for it, or its place or its print has more than sixteen bits.
fn note_name<'a, 'b>(
    places: &'a mut [u16],
    prints: &'a mut [u16],
    k: usize,
    s: &'b [u8],
    at: usize,
) -> bool
    requires at_in_bounds { at ≤ length s.now }
    requires places_len { length places.old ≡ length prints.old }
    ensures { NotesName s.now at k places.old prints.old result places.new prints.new }
{
    if k >= places.len() {
        return false;
    }
    if at > 65535 {
        return false;
    }
    let p = print_from(s, at, 0);
    if p > 65535 {
        return false;
    }
    places[k] = at as u16;
    prints[k] = p as u16;
    true
}

// The names of the members of the value at a place, none where it is no object: how many rows they took, where each of them was noted.
fn note_names<'a, 'b>(
    places: &'a mut [u16],
    prints: &'a mut [u16],
    s: &'b [u8],
    at: usize,
    depth: usize,
) -> Option<usize>
    requires { length places.old ≡ length prints.old }
    ensures noted_in { NotedIn (length places.old) result }
    ensures notes_names { NotesNames depth s.now at result places.new prints.new }
{
    let mut k = 0;
    let mut m = first_member(s, at);
    loop {
        let Member::At { name: q, start: a } = m else {
            return Some(k);
        };
        if !note_name(places, prints, k, s, q) {
            return None;
        }
        k += 1;
        let e = skip_value(s, a);
        m = next_member(s, e);
    }
}

// Where each group begins, and where the last ends.
pub const ENDS: usize = maps::GROUPS + 1;

// The names of the group i: of the map i, whose slot is the sixth for the first, or, the last group, of the card itself.
fn note_group<'a, 'b, 'c>(
    places: &'a mut [u16],
    prints: &'a mut [u16],
    s: &'b [u8],
    slots: &'c [usize],
    i: usize,
) -> Option<usize>
    requires i_lt_group_count { (i < group_count) × (map_slots ≤ length slots.now) }
    requires places_len { length places.old ≡ length prints.old }
    ensures noted_in { NotedIn (length places.old) result }
    ensures notes_group { NotesGroup s.now slots.now i result places.new prints.new }
{
    if i == maps::POINTERS {
        return note_names(places, prints, s, 0, members::DEPTH);
    }
    let k = i + members::MAPS;
    let at = slots[k];
    if at == 0 {
        return Some(0);
    }
    note_names(places, prints, s, at, maps::DEPTH)
}

// All groups, one after the other, with the row that each begins at and that after the last. Answers how many such rows there are: none where a name did
// not fit.
pub fn note_groups<'a, 'b, 'c, 'd>(
    places: &'a mut [u16],
    prints: &'a mut [u16],
    ends: &'b mut [usize],
    s: &'c [u8],
    slots: &'d [usize],
) -> usize
    requires ends_len { (length ends.old ≡ 9) × (map_slots ≤ length slots.now) }
    requires places_len { length places.old ≡ length prints.old }
    ensures { (result ≤ 9) × Indexes s.now slots.now places.new prints.new (take result ends.new) }
{
    ends[0] = 0;
    let mut n = 0;
    let mut i = 0;
    while i < maps::GROUPS {
        let Some(k) = note_group(&mut places[n..], &mut prints[n..], s, slots, i) else {
            return 0;
        };
        n += k;
        i += 1;
        ends[i] = n;
    }
    ENDS
}

// The same question, asked of the text.
fn has_walked(s: &[u8], slots: &[usize], i: usize, key: &[u8]) -> bool
    requires { (i < group_count) × (map_slots ≤ length slots.now) }
    ensures { HasName s.now slots.now i key.now result }
{
    if i == maps::POINTERS {
        return has_member(s, 0, members::DEPTH, key);
    }
    let k = i + members::MAPS;
    let at = slots[k];
    if at == 0 {
        return false;
    }
    has_member(s, at, maps::DEPTH, key)
}

// Whether a group has a name, by what is noted, or by a walk where nothing is.
pub fn has_name<'a, 'b, 'c, 'd, 'e>(
    s: &'a [u8],
    slots: &'b [usize],
    places: &'c [u16],
    prints: &'c [u16],
    ends: &'d [usize],
    i: usize,
    key: &'e [u8],
) -> bool
    requires i_lt_group_count { (i < group_count) × (map_slots ≤ length slots.now) }
    requires indexes { Indexes s.now slots.now places.now prints.now ends.now }
    ensures { HasName s.now slots.now i key.now result }
{
    if ends.len() == 0 {
        return has_walked(s, slots, i, key);
    }
    let a = ends[i];
    let e = ends[i + 1];
    is_key_noted(s, key, &places[a..e], &prints[a..e])
}
