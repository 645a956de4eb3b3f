// Whether a line is kept after all converted lines of a JSON card. `class_line` leaves one question open, to what was seen: whether a PROP-ID is used
// in its map, or a member's name in the card. Both are answered by the JSON text, by what is noted of its names where that is.
#![tactic(auto)]

ghost use Rattle.std.specs.Prelude.{◌≡◌, ◌≤◌, ◌<◌, length};
ghost use Rattle.class_line.specs.Class.{ClassIn};
ghost use Rattle.convert_pointer.specs.Name.{Pointing};
ghost use Rattle.to_card_kept_names.specs.Groups.{Indexes};
ghost use Rattle.card_table.specs.Numbers.{map_count, map_slots};
ghost use Rattle.to_card_kept_used.specs.Used.{IdUsed, PointerUsed, KeptIn};

use card_table::maps;
use class_line::Class;
use convert_pointer::read_pointer;
use output::Full;
use to_card_kept_names::has_name;

// Whether an entry of the map i has the key. The slots are those of the top-level members, by the list of reserved names: the first map's is the sixth.
// What is noted of the names is in `places`, `prints` and `ends`.
fn id_used<'a, 'b, 'c, 'd, 'e>(
    s: &'a [u8],
    slots: &'b [usize],
    places: &'c [u16],
    prints: &'c [u16],
    ends: &'d [usize],
    i: usize,
    key: &'e [u8],
) -> bool
    requires i_lt_map_count { (i < map_count) × (map_slots ≤ length slots.now) }
    requires indexes { Indexes s.now slots.now places.now prints.now ends.now }
    ensures { IdUsed s.now slots.now i key.now result }
{
    has_name(s, slots, places, prints, ends, i, key)
}

// Whether the card has the member that the pointer points at. The scratch is for its name.
fn pointer_used<'a, 'b, 'c, 'd, 'e, 'f>(
    s: &'a [u8],
    slots: &'b [usize],
    places: &'c [u16],
    prints: &'c [u16],
    ends: &'d [usize],
    scratch: &'e mut [u8],
    p: &'f [u8],
) -> bool
    requires pointing { Pointing p.now × (length p.now ≤ length scratch.old) × (map_slots ≤ length slots.now) }
    requires indexes { Indexes s.now slots.now places.now prints.now ends.now }
    ensures { PointerUsed s.now p.now result }
{
    let Ok(n) = read_pointer(scratch, p) else {
        return false;
    };
    has_name(
        s,
        slots,
        places,
        prints,
        ends,
        maps::POINTERS,
        &scratch[0..n],
    )
}

// Whether the line in b, of that class, is kept.
pub fn is_kept_class<'a, 'b, 'c, 'd, 'e, 'f>(
    s: &'a [u8],
    slots: &'b [usize],
    places: &'c [u16],
    prints: &'c [u16],
    ends: &'d [usize],
    b: &'e [u8],
    scratch: &'f mut [u8],
    class: Class,
) -> bool
    requires map_slots_in_bounds { (map_slots ≤ length slots.now) × (length b.now ≤ length scratch.old) × ClassIn b.now class }
    requires indexes { Indexes s.now slots.now places.now prints.now ends.now }
    ensures { KeptIn s.now slots.now b.now class result }
{
    match class {
        Class::Kept => true,
        Class::Dropped => false,
        Class::Version => false,
        Class::Uid => false,
        Class::Kind => false,
        Class::Full => false,
        Class::Parts => false,
        Class::Entry { map } => false,
        Class::Keyed { map, start, end } => {
            id_used(s, slots, places, prints, ends, map, &b[start..end])
        }
        Class::Member { start, end } => {
            pointer_used(s, slots, places, prints, ends, scratch, &b[start..end])
        }
    }
}
