// The entries of vCardProps of a JSON text as kept lines of a card. Each is decoded into a lent buffer and laid out as a line's table. The classifier of
// card lines then judges it: an entry whose line would convert in its place is 12.
#![tactic(auto)]

ghost use Rattle.std.specs.Prelude.{◌≡◌, ◌+◌, ◌≤◌, length};
ghost use Rattle.line_table.specs.Table.{Sound};
ghost use Rattle.class_member.specs.Member.{Room};
ghost use Rattle.to_card_entry.specs.Rows.{EnteredIn};
ghost use Rattle.to_card_lines.specs.Lines.{LinesIn};
ghost use Rattle.to_card_kept_names.specs.Groups.{Indexes};
ghost use Rattle.card_table.specs.Numbers.{card_slots};
ghost use Rattle.to_card_kept.specs.Kept.{Lent, PutsKept};
ghost use Rattle.to_card_kept.specs.Puts.{TellsKept, as_entered, as_lines, AskedOnce, PutsEntry, PutsFrom, LinesWithin, RunIn, PutsRun};

use card_table::{members, params};
use class_line::{Class, class_line};
use convert_params::Rows;
use json_limits::NAMES;
use json_marks::{separator, skip_space};
use std::ops::ControlFlow;
use table_params::scan_rows;
use table_sound::is_sound;
use text::{LEFT_BRACKET, RIGHT_BRACKET, look};
use to_card_kept_entry::fill::fill_kept;
use to_card_kept_entry::writing::put_kept_line;
use to_card_kept_names::{ENDS, note_groups};
use to_card_kept_used::is_kept_class;
use to_card_lines::Lines;
use to_card_pen::NoCard;

// So many questions are looked up by walks over the text: few cards have more of them, and most have none.
const QUESTIONS: usize = 16;

// Whether a line is kept, and how often the names of the card were asked for that: once at most.
#[derive(Drop)]
struct Judged {
    kept: bool,
    asked: usize,
}

// How often the names are asked for a line that is kept: one of the class of kept lines is so whatever they are.
fn questions(class: Class) -> usize
    ensures { result ≤ 1 }
{
    match class {
        Class::Kept => 0,
        _ => 1,
    }
}

// Whether the line that the table holds is kept after all converted lines.
fn is_kept_line<'a, 'b, 'c, 'd, 'e, 'f, 'g>(
    b: &'a [u8],
    t: &'b [usize],
    scratch: &'c mut [u8],
    s: &'d [u8],
    slots: &'e [usize],
    places: &'f [u16],
    prints: &'f [u16],
    ends: &'g [usize],
    full: bool,
    parts: bool,
) -> Judged
    requires sound { Sound b.now t.now × Room b.now scratch.old × (card_slots ≤ length slots.now) }
    requires indexes { Indexes s.now slots.now places.now prints.now ends.now }
    ensures tells_kept { TellsKept s.now slots.now b.now t.now full parts result.kept }
    ensures asked_bound { result.asked ≤ 1 }
{
    let mut counts = [0usize; params::COUNT];
    let mut froms = [0usize; params::COUNT];
    let mut tos = [0usize; params::COUNT];
    scan_rows(&mut counts, &mut froms, &mut tos, b, t);
    let rows = Rows {
        counts: &counts,
        froms: &froms,
        tos: &tos,
    };
    let class = class_line(rows, b, t, scratch, full, parts);
    let asked = questions(class);
    let kept = is_kept_class(s, slots, places, prints, ends, b, scratch, class);
    Judged {
        kept: kept,
        asked: asked,
    }
}

// An entry as a line: its bytes, whether they carry it, the place after it, and how often the names of the card were asked.
#[derive(Clone, Copy)]
struct KeptLine {
    bytes: usize,
    carries: bool,
    next: usize,
    asked: usize,
}

// An entry as a line: none, which is 12, where no kept line gives it in its place.
fn put_entry<'a, 'b, 'c, 'd, 'e, 'f, 'g, 'h>(
    out: &'a mut [u8],
    b: &'b mut [u8],
    t: &'c mut [usize],
    scratch: &'d mut [u8],
    s: &'e [u8],
    slots: &'f [usize],
    places: &'g [u16],
    prints: &'g [u16],
    ends: &'h [usize],
    at: usize,
    full: bool,
    parts: bool,
) -> Option<KeptLine>
    requires lent { Lent b.old t.old scratch.old s.now slots.now }
    requires indexes { Indexes s.now slots.now places.now prints.now ends.now }
    requires at_in_bounds { at ≤ length s.now }
    ensures entered_in { EnteredIn s.now at (length out.old) (as_entered result) }
    ensures out_len_unchanged { length out.new ≡ length out.old }
    ensures puts_entry { PutsEntry s.now slots.now at full parts out.old (as_lines (as_entered result)) out.new }
    ensures asked_once { AskedOnce result }
{
    let end = fill_kept(b, t, s, at)?;
    if !is_sound(b, t) {
        return None;
    }
    let judged = is_kept_line(b, t, scratch, s, slots, places, prints, ends, full, parts);
    if !judged.kept {
        return None;
    }
    let p = put_kept_line(out, b, t);
    let n = p.bytes;
    let ok = p.carried;
    let q = judged.asked;
    Some(KeptLine {
        bytes: n,
        carries: ok,
        next: end,
        asked: q,
    })
}

// How far entries were written: to their end, or some of them, with the place of the next.
#[derive(Drop)]
enum Run {
    Ended(Result<Lines, NoCard>),
    More {
        bytes: usize,
        lines: usize,
        carries: bool,
        next: usize,
    },
}

// The entries from a place on, until the names of the card were asked for `most` of them.
fn put_run<'a, 'b, 'c, 'd, 'e, 'f, 'g, 'h>(
    out: &'a mut [u8],
    b: &'b mut [u8],
    t: &'c mut [usize],
    scratch: &'d mut [u8],
    s: &'e [u8],
    slots: &'f [usize],
    places: &'g [u16],
    prints: &'g [u16],
    ends: &'h [usize],
    at: usize,
    full: bool,
    parts: bool,
    most: usize,
) -> Run
    requires lent { Lent b.old t.old scratch.old s.now slots.now }
    requires indexes { Indexes s.now slots.now places.now prints.now ends.now }
    requires at_in_bounds { at ≤ length s.now }
    ensures run_in { RunIn (length out.old) (length s.now) most result }
    ensures out_len_unchanged { length out.new ≡ length out.old }
    ensures puts_run { PutsRun s.now slots.now at full parts out.old result out.new }
{
    let mut i = at;
    let mut n = 0;
    let mut lines = 0;
    let mut asked = 0;
    let mut ok = true;
    loop {
        let Some(line) = put_entry(
            &mut out[n..],
            b,
            t,
            scratch,
            s,
            slots,
            places,
            prints,
            ends,
            i,
            full,
            parts,
        ) else {
            return Run::Ended(Err(NoCard));
        };
        n += line.bytes;
        lines += 1;
        asked += line.asked;
        ok = ok & line.carries;
        match separator(s, line.next, RIGHT_BRACKET) {
            ControlFlow::Continue(j) => {
                if asked == most {
                    return Run::More {
                        bytes: n,
                        lines,
                        carries: ok,
                        next: j,
                    };
                }
                i = j;
            }
            ControlFlow::Break(r) => {
                return Run::Ended(Ok(Lines {
                    bytes: n,
                    lines,
                    carries: ok,
                }));
            }
        }
    }
}

// All entries from a place on, after the names of the card are noted: no text has more entries than bytes.
fn put_noted(
    out: &mut [u8],
    b: &mut [u8],
    t: &mut [usize],
    scratch: &mut [u8],
    s: &[u8],
    slots: &[usize],
    at: usize,
    full: bool,
    parts: bool,
) -> Result<Lines, NoCard>
    requires lent { Lent b.old t.old scratch.old s.now slots.now }
    requires at_in_bounds { at ≤ length s.now }
    ensures lines_within { LinesWithin (length out.old) (length s.now + 1) result }
    ensures out_len_unchanged { length out.new ≡ length out.old }
    ensures puts_from { PutsFrom s.now slots.now at full parts out.old result out.new }
{
    let mut places = [0u16; NAMES];
    let mut prints = [0u16; NAMES];
    let mut ends = [0usize; ENDS];
    let k = note_groups(&mut places, &mut prints, &mut ends, s, slots);
    let most = s.len() + 1;
    match put_run(
        out,
        b,
        t,
        scratch,
        s,
        slots,
        &places,
        &prints,
        &ends[0..k],
        at,
        full,
        parts,
        most,
    ) {
        Run::Ended(r) => r,
        Run::More {
            bytes: n,
            lines,
            carries: ok,
            next: j,
        } => Err(NoCard),
    }
}

// The entries from a place on: the first questions by walks over the text, the names noted for the others.
fn put_from(
    out: &mut [u8],
    b: &mut [u8],
    t: &mut [usize],
    scratch: &mut [u8],
    s: &[u8],
    slots: &[usize],
    at: usize,
    full: bool,
    parts: bool,
) -> Result<Lines, NoCard>
    requires lent { Lent b.old t.old scratch.old s.now slots.now }
    requires at_in_bounds { at ≤ length s.now }
    ensures lines_in { LinesIn (length out.old) result }
    ensures out_len_unchanged { length out.new ≡ length out.old }
    ensures puts_from { PutsFrom s.now slots.now at full parts out.old result out.new }
{
    let none = [0u16; 1];
    match put_run(
        out,
        b,
        t,
        scratch,
        s,
        slots,
        &none,
        &none,
        &slots[0..0],
        at,
        full,
        parts,
        QUESTIONS,
    ) {
        Run::Ended(r) => r,
        Run::More {
            bytes: n,
            lines,
            carries: ok,
            next: j,
        } => {
            let noted = put_noted(&mut out[n..], b, t, scratch, s, slots, j, full, parts)?;
            Ok(Lines {
                bytes: n + noted.bytes,
                lines: lines + noted.lines,
                carries: ok & noted.carries,
            })
        }
    }
}

// All entries of vCardProps, whose slot is that of the last reserved name; no lines where the text has none. The buffer is as long as the text.
pub fn put_kept(
    out: &mut [u8],
    b: &mut [u8],
    t: &mut [usize],
    scratch: &mut [u8],
    s: &[u8],
    slots: &[usize],
    full: bool,
    parts: bool,
) -> Result<Lines, NoCard>
    requires { Lent b.old t.old scratch.old s.now slots.now }
    ensures lines_in { LinesIn (length out.old) result }
    ensures out_len_unchanged { length out.new ≡ length out.old }
    ensures puts_kept { PutsKept s.now slots.now full parts out.old result out.new }
{
    let at = slots[members::KEPT];
    if at == 0 {
        return Ok(Lines {
            bytes: 0,
            lines: 0,
            carries: true,
        });
    }
    if at > s.len() {
        return Err(NoCard);
    }
    let i = skip_space(s, at);
    if look(s, i) != LEFT_BRACKET {
        return Err(NoCard);
    }
    let j = skip_space(s, i + 1);
    if look(s, j) == RIGHT_BRACKET {
        return Ok(Lines {
            bytes: 0,
            lines: 0,
            carries: true,
        });
    }
    put_from(out, b, t, scratch, s, slots, j, full, parts)
}
