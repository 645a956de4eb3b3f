// Card to JSON: the service.
#![tactic(auto)]

ghost use Rattle.std.specs.Prelude.{◌≡◌, ◌+◌, ◌*◌, ◌≤◌, ◌<◌, length};
ghost use Rattle.convert.specs.Answers.{card_room, json_room, line_room, yes};
ghost use Rattle.services.specs.Promises.{CardGives};
ghost use Rattle.from_card_classes.specs.Pass.{HasLines, Lent};
ghost use Rattle.to_json_card.specs.Card.{Lent as Written};
ghost use Rattle.card_to_json.specs.Inner.{inner, Serves};
ghost use Rattle.card_to_json.specs.Laying.{Lays};
ghost use Rattle.card_to_json.specs.Making.{Tests, MakesJson, MakesLines, MakesCard, ServesIn};

use from_card_classes::class_lines;
use from_card_garbled::first_garbled;
use from_card_lines::ClassedLines;
use from_card_seen::ID;
use from_card_stem::{is_card_number, is_stem};
use json_limits::ROOM;
use line_frame::{frame_of, size_of};
use line_limits::CARD;
use line_table::table;
use line_unfold::unfold;
use output::{Full, put_text};
use served::{Refusal, Unmade};
use to_json_card::put_card;

// The JSON, whole in a scratch, to the lent output: 14 where it is longer, and then no byte is written.
fn finish(out: &mut [u8], text: &[u8]) -> Result<usize, Refusal>
    requires { length text.now ≤ json_room }
    ensures { Serves out.old (yes text.now) result out.new }
{
    if text.len() > out.len() {
        return Err(Refusal {
            number: 14,
            place: 0,
        });
    }
    let Ok(k) = put_text(out, text) else {
        return Err(Refusal {
            number: 14,
            place: 0,
        });
    };
    Ok(k)
}

// Why a card has no unfolded lines in a scratch: it is not one card, or it has more lines than are taken.
#[derive(Clone, Copy)]
pub enum NoLines {
    NotOne,
    TooMany,
}

// The lines between BEGIN and END, unfolded into a scratch: how many they are.
fn lines_of(
    scratch: &mut [u8],
    starts: &mut [usize],
    most: usize,
    card: &[u8],
) -> Result<usize, NoLines>
    requires { (length card.now ≤ length scratch.old) × (most < length starts.old) × (most ≤ line_room) }
    ensures { Lays most card.now result scratch.new starts.new }
{
    let Some(body) = frame_of(card) else {
        return Err(NoLines::NotOne);
    };
    let Ok(n) = unfold(scratch, starts, most, &card[body.start..body.end]) else {
        return Err(NoLines::TooMany);
    };
    Ok(n)
}

// Refusals 4 to 10 over the lines of a scratch. Where none is given, `codes` has the number of each line's class.
fn refusal_in(
    codes: &mut [u8],
    ids: &mut [usize],
    prints: &mut [u16],
    t: &mut [usize],
    text: &mut [u8],
    scratch: &[u8],
    starts: &[usize],
    n: usize,
) -> Option<Refusal>
    requires { HasLines scratch.now starts.now n × Lent codes.old ids.old prints.old t.old text.old scratch.now n }
    ensures { Tests scratch.now starts.now codes.new n result }
{
    if let Some(place) = first_garbled(scratch, starts, n) {
        return Some(Refusal { number: 4, place });
    }
    class_lines(codes, ids, prints, t, text, scratch, starts, n)
}

// The length of a card's JSON at the front of a result; or a refusal; or the result is too short for it, or the tables for its lines. Here of classified lines.
fn put_json(
    res: &mut [u8],
    t: &mut [usize],
    text: &mut [u8],
    stem: &[u8],
    number: usize,
    scratch: &[u8],
    starts: &[usize],
    codes: &[u8],
    n: usize,
) -> Result<usize, Unmade>
    requires { Written t.old text.old scratch.now starts.now codes.now n }
    ensures { MakesJson stem.now number scratch.now starts.now codes.now n res.old result res.new }
{
    let lines = ClassedLines {
        scratch,
        starts,
        codes,
        count: n,
    };
    let Ok(k) = put_card(res, t, text, stem, number, lines) else {
        return Err(Unmade::Full);
    };
    Ok(k)
}

// Of lines in a scratch.
fn json_of(
    res: &mut [u8],
    codes: &mut [u8],
    ids: &mut [usize],
    prints: &mut [u16],
    t: &mut [usize],
    text: &mut [u8],
    stem: &[u8],
    number: usize,
    scratch: &[u8],
    starts: &[usize],
    n: usize,
) -> Result<usize, Unmade>
    requires { HasLines scratch.now starts.now n × Lent codes.old ids.old prints.old t.old text.old scratch.now n }
    ensures { MakesLines stem.now number scratch.now starts.now n res.old result res.new }
{
    let Some(r) = refusal_in(codes, ids, prints, t, text, scratch, starts, n) else {
        return put_json(res, t, text, stem, number, scratch, starts, codes, n);
    };
    Err(Unmade::Refused(r))
}

// Of a card. All that is lent but `result` is scratch: the tables are for as many lines as `codes` is long.
fn convert(
    res: &mut [u8],
    scratch: &mut [u8],
    starts: &mut [usize],
    codes: &mut [u8],
    ids: &mut [usize],
    prints: &mut [u16],
    t: &mut [usize],
    text: &mut [u8],
    stem: &[u8],
    number: usize,
    card: &[u8],
) -> Result<usize, Unmade>
    requires scratch_len { length card.now ≤ length scratch.old }
    requires starts_len { length codes.old < length starts.old }
    requires codes_bound { length codes.old ≤ line_room }
    requires lent { Lent codes.old ids.old prints.old t.old text.old scratch.old (length codes.old) }
    ensures { MakesCard stem.now number card.now (length codes.old) res.old result res.new }
{
    match lines_of(scratch, starts, codes.len(), card) {
        Err(NoLines::NotOne) => {
            return Err(Unmade::Refused(Refusal {
                number: 1,
                place: 0,
            }));
        }
        Err(NoLines::TooMany) => {
            return Err(Unmade::Full);
        }
        Ok(n) => {
            return json_of(
                res, codes, ids, prints, t, text, stem, number, scratch, starts, n,
            );
        }
    }
}

// Served from scratch of these sizes: bytes and lines of a card, the places of its lines, three words a line, bytes of its JSON. None: the scratch is too small for
// the card, and the lent output is as it was. Never inlined, so that the scratch is gone before a larger one is made.
#[inline(never)]
fn served_in<
    const BYTES: usize,
    const LINES: usize,
    const STARTS: usize,
    const IDS: usize,
    const JSON: usize,
>(out: &mut [u8], stem: &[u8], number: usize, card: &[u8]) -> Option<Result<usize, Refusal>>
    requires card_fits { length card.now ≤ BYTES }
    requires bytes_bound { BYTES ≤ card_room }
    requires lines_bound { LINES ≤ line_room }
    requires starts_len { STARTS ≡ LINES + 1 }
    requires ids_len { IDS ≡ 3 * LINES }
    requires json_bound { JSON ≤ json_room }
    ensures { ServesIn stem.now number card.now LINES JSON out.old result out.new }
{
    let mut result = [0u8; JSON];
    let mut scratch = [0u8; BYTES];
    let mut starts = [0usize; STARTS];
    let mut codes = [0u8; LINES];
    let mut ids = [0usize; IDS];
    let mut prints = [0u16; LINES];
    let mut t = [0usize; table::LENGTH];
    let mut text = [0u8; BYTES];
    match convert(
        &mut result,
        &mut scratch,
        &mut starts,
        &mut codes,
        &mut ids,
        &mut prints,
        &mut t,
        &mut text,
        stem,
        number,
        card,
    ) {
        Err(Unmade::Refused(r)) => Some(Err(r)),
        Err(Unmade::Full) => None,
        Ok(k) => {
            let made = &result[..];
            Some(finish(out, &made[0..k]))
        }
    }
}

// The sizes of scratch. Most cards are short: their scratch, for 64 lines and a result of 4,096 bytes, is quick to clear.
const SMALL: usize = 2048;

const SMALL_LINES: usize = 64;

const SMALL_STARTS: usize = SMALL_LINES + 1;

const SMALL_IDS: usize = ID * SMALL_LINES;

const SMALL_JSON: usize = 4096;

// For a card of some length.
const MEDIUM: usize = 8192;

const MEDIUM_LINES: usize = 256;

const MEDIUM_STARTS: usize = MEDIUM_LINES + 1;

const MEDIUM_IDS: usize = ID * MEDIUM_LINES;

const MEDIUM_JSON: usize = 16384;

// For every card that has room: 32,768 bytes, 512 lines, a result of 65,536 bytes.
const LARGE_LINES: usize = line_limits::LINES;

const LARGE_STARTS: usize = LARGE_LINES + 1;

const LARGE_IDS: usize = ID * LARGE_LINES;

// Card to JSON: 15, then 3 for a long card, then what its lines say. A refusal leaves the lent output as it was.
pub fn card_to_json(
    stem: &[u8],
    number: usize,
    card: &[u8],
    out: &mut [u8],
) -> Result<usize, Refusal>
    ensures { CardGives stem.now number card.now out.old result out.new }
{
    if !is_stem(stem) {
        return Err(Refusal {
            number: 15,
            place: 0,
        });
    }
    if !is_card_number(number) {
        return Err(Refusal {
            number: 15,
            place: 0,
        });
    }
    if size_of(card) > CARD {
        return Err(Refusal {
            number: 3,
            place: 0,
        });
    }
    if card.len() <= SMALL {
        if let Some(answer) = served_in::<SMALL, SMALL_LINES, SMALL_STARTS, SMALL_IDS, SMALL_JSON>(
            out, stem, number, card,
        ) {
            return answer;
        }
    }
    if card.len() <= MEDIUM {
        if let Some(answer) = served_in::<
            MEDIUM,
            MEDIUM_LINES,
            MEDIUM_STARTS,
            MEDIUM_IDS,
            MEDIUM_JSON,
        >(out, stem, number, card)
        {
            return answer;
        }
    }
    let Some(answer) = served_in::<CARD, LARGE_LINES, LARGE_STARTS, LARGE_IDS, ROOM>(
        out, stem, number, card,
    ) else {
        return Err(Refusal {
            number: 3,
            place: 0,
        });
    };
    answer
}
