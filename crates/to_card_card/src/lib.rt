// The whole card from JSON that was read as sound: its sections one after the other, each lent the rest of the room.
#![tactic(auto)]

ghost use Rattle.std.specs.Prelude.{◌≡◌, true, ◌≤◌, length};
ghost use Rattle.json_index.specs.Index.{Indexes};
ghost use Rattle.to_card_lines.specs.Lines.{LinesIn};
ghost use Rattle.to_card_kept.specs.Kept.{Lent};
ghost use Rattle.card_table.specs.Numbers.{card_slots};
ghost use Rattle.to_card_card.specs.Whole.{card_names, few, FewIn, PutsOthers, PutsLast, PutsRest, PutsBody, PutsCard};

use card_table::{lines, members};
use line_limits::LINES;
use line_pen::fill;
use to_card_head::put_head;
use to_card_kept::put_kept;
use to_card_lines::Lines;
use to_card_maps::put_maps;
use to_card_members::put_members;
use to_card_name::put_name;
use to_card_pen::NoCard;

// This stands for every number of lines that is over a card's.
const MORE: usize = LINES + 1;

// The number of lines, or that.
fn up_to(n: usize) -> usize
    ensures { result ≡ few n }
{
    if n > LINES {
        return MORE;
    }
    n
}

// The other members: none where their slot, after those of the reserved names, is empty, and then the text is not gone through again.
fn put_others(out: &mut [u8], buffer: &mut [u8], s: &[u8], slots: &[usize]) -> Result<Lines, NoCard>
    requires out_in_bounds { length out.old ≤ length buffer.old }
    requires card_slots_in_bounds { card_slots ≤ length slots.now }
    ensures lines_in { LinesIn (length out.old) result }
    ensures out_len_unchanged { length out.new ≡ length out.old }
    ensures puts_others { PutsOthers s.now slots.now out.old result out.new }
{
    if slots[members::OTHER] == 0 {
        return Ok(Lines {
            bytes: 0,
            lines: 0,
            carries: true,
        });
    }
    put_members(out, buffer, s)
}

// Other members, then the kept lines.
fn put_last(
    out: &mut [u8],
    buffer: &mut [u8],
    b: &mut [u8],
    t: &mut [usize],
    scratch: &mut [u8],
    s: &[u8],
    slots: &[usize],
    full: bool,
    parts: bool,
) -> Result<Lines, NoCard>
    requires out_in_bounds { length out.old ≤ length buffer.old }
    requires lent { Lent b.old t.old scratch.old s.now slots.now }
    ensures few_in { FewIn (length out.old) result }
    ensures out_len_unchanged { length out.new ≡ length out.old }
    ensures puts_last { PutsLast s.now slots.now full parts out.old result out.new }
{
    let others = put_others(out, buffer, s, slots)?;
    let kept = put_kept(
        &mut out[others.bytes..],
        b,
        t,
        scratch,
        s,
        slots,
        full,
        parts,
    )?;
    let bytes = others.bytes + kept.bytes;
    let lines = up_to(up_to(others.lines) + up_to(kept.lines));
    Ok(Lines {
        bytes,
        lines,
        carries: others.carries & kept.carries,
    })
}

// The maps, then these.
fn put_rest(
    out: &mut [u8],
    buffer: &mut [u8],
    b: &mut [u8],
    t: &mut [usize],
    scratch: &mut [u8],
    s: &[u8],
    slots: &[usize],
    full: bool,
    parts: bool,
) -> Result<Lines, NoCard>
    requires out_in_bounds { length out.old ≤ length buffer.old }
    requires lent { Lent b.old t.old scratch.old s.now slots.now }
    ensures few_in { FewIn (length out.old) result }
    ensures out_len_unchanged { length out.new ≡ length out.old }
    ensures puts_rest { PutsRest s.now slots.now full parts out.old result out.new }
{
    let maps = put_maps(out, s, slots)?;
    let last = put_last(
        &mut out[maps.bytes..],
        buffer,
        b,
        t,
        scratch,
        s,
        slots,
        full,
        parts,
    )?;
    let bytes = maps.bytes + last.bytes;
    let lines = up_to(up_to(maps.lines) + last.lines);
    Ok(Lines {
        bytes,
        lines,
        carries: maps.carries & last.carries,
    })
}

// The name, then these. Two lines of a name are FN and N.
fn put_body(
    out: &mut [u8],
    buffer: &mut [u8],
    b: &mut [u8],
    t: &mut [usize],
    scratch: &mut [u8],
    s: &[u8],
    slots: &[usize],
) -> Result<Lines, NoCard>
    requires out_in_bounds { length out.old ≤ length buffer.old }
    requires lent { Lent b.old t.old scratch.old s.now slots.now }
    ensures few_in { FewIn (length out.old) result }
    ensures out_len_unchanged { length out.new ≡ length out.old }
    ensures puts_body { PutsBody s.now slots.now out.old result out.new }
{
    let name = put_name(out, s, slots[members::NAME])?;
    let parts = name.lines.lines == 2;
    let rest = put_rest(
        &mut out[name.lines.bytes..],
        buffer,
        b,
        t,
        scratch,
        s,
        slots,
        name.full,
        parts,
    )?;
    let bytes = name.lines.bytes + rest.bytes;
    let lines = up_to(up_to(name.lines.lines) + rest.lines);
    Ok(Lines {
        bytes,
        lines,
        carries: name.lines.carries & rest.carries,
    })
}

// The card of a sound JSON text that is an object, by the slots of its members: 12, or as much of it as the room holds. BEGIN and the head, then these and END.
pub fn put_card(
    out: &mut [u8],
    buffer: &mut [u8],
    b: &mut [u8],
    t: &mut [usize],
    scratch: &mut [u8],
    s: &[u8],
    slots: &[usize],
) -> Result<Lines, NoCard>
    requires out_in_bounds { length out.old ≤ length buffer.old }
    requires lent { Lent b.old t.old scratch.old s.now slots.now }
    requires indexes { Indexes 15 s.now 0 card_names slots.now true }
    ensures few_in { FewIn (length out.old) result }
    ensures out_len_unchanged { length out.new ≡ length out.old }
    ensures puts_card { PutsCard s.now out.old result out.new }
{
    let card = slots[members::TYPE];
    let version = slots[members::VERSION];
    let uid = slots[members::UID];
    let kind = slots[members::KIND];
    let head = put_head(out, s, card, version, uid, kind)?;
    let body = put_body(&mut out[head.bytes..], buffer, b, t, scratch, s, slots)?;
    let e = head.bytes + body.bytes;
    let z = fill(&mut out[e..], &lines::END);
    let bytes = e + z;
    let lines = up_to(up_to(head.lines) + body.lines);
    Ok(Lines {
        bytes,
        lines,
        carries: head.carries & body.carries,
    })
}
