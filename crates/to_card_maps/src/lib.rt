// The seven maps of a JSON card as lines, one after the other in the table's order. A row of the table is data (`card_table`): an eighth map is one more branch here.
#![tactic(auto)]

ghost use Rattle.std.specs.Prelude.{◌≡◌, ◌≤◌, length};
ghost use Rattle.to_card_map.specs.Maps.{LinesIn};
ghost use Rattle.json_text.specs.Lookup.{room};
ghost use Rattle.card_table.specs.Numbers.{map_slots};
ghost use Rattle.to_card_maps.specs.Seven.{PutsNth, PutsMaps};

use card_table::{
    emails, kinds, links, maps, members, nicknames, notes, organizations, phones, titles,
};
use to_card_lines::Lines;
use to_card_map::put_map;
use to_card_pen::NoCard;

// The map of a row of the table, in a slot.
fn put_nth(out: &mut [u8], s: &[u8], k: usize, slot: usize) -> Result<Lines, NoCard>
    ensures lines_in { LinesIn (length out.old) (length s.now) result }
    ensures out_len_unchanged { length out.new ≡ length out.old }
    ensures puts_nth { PutsNth s.now k slot out.old result out.new }
{
    if k == nicknames::MAP {
        return put_map(
            out,
            s,
            slot,
            &nicknames::MEMBERS,
            &maps::NO_KINDS,
            0,
            &nicknames::LINES,
            nicknames::FORM_BYTE,
        );
    }
    if k == emails::MAP {
        return put_map(
            out,
            s,
            slot,
            &emails::MEMBERS,
            &maps::NO_KINDS,
            0,
            &emails::LINES,
            emails::FORM_BYTE,
        );
    }
    if k == phones::MAP {
        return put_map(
            out,
            s,
            slot,
            &phones::MEMBERS,
            &maps::NO_KINDS,
            0,
            &phones::LINES,
            phones::FORM_BYTE,
        );
    }
    if k == links::MAP {
        return put_map(
            out,
            s,
            slot,
            &links::MEMBERS,
            &maps::NO_KINDS,
            0,
            &links::LINES,
            links::FORM_BYTE,
        );
    }
    if k == notes::MAP {
        return put_map(
            out,
            s,
            slot,
            &notes::MEMBERS,
            &maps::NO_KINDS,
            0,
            &notes::LINES,
            notes::FORM_BYTE,
        );
    }
    if k == titles::MAP {
        return put_map(
            out,
            s,
            slot,
            &titles::MEMBERS,
            &kinds::NAMES,
            kinds::COUNT,
            &titles::LINES,
            titles::FORM_BYTE,
        );
    }
    put_map(
        out,
        s,
        slot,
        &organizations::MEMBERS,
        &maps::NO_KINDS,
        0,
        &organizations::LINES,
        organizations::FORM_BYTE,
    )
}

// All seven. The slots are those of the top-level members, by the list of reserved names: the first map's is the sixth.
pub fn put_maps(out: &mut [u8], s: &[u8], slots: &[usize]) -> Result<Lines, NoCard>
    requires s_len_bound { length s.now ≤ room }
    requires map_slots_in_bounds { map_slots ≤ length slots.now }
    ensures lines_in { LinesIn (length out.old) 458758 result }
    ensures out_len_unchanged { length out.new ≡ length out.old }
    ensures puts_maps { PutsMaps s.now slots.now out.old result out.new }
{
    let mut n = 0;
    let mut lines = 0;
    let mut ok = true;
    for k in 0..maps::COUNT {
        let i = k + members::MAPS;
        let map = put_nth(&mut out[n..], s, k, slots[i])?;
        n += map.bytes;
        lines += map.lines;
        ok = ok & map.carries;
    }
    Ok(Lines {
        bytes: n,
        lines,
        carries: ok,
    })
}
