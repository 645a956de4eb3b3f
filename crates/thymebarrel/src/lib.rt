// The C interface: the services under C names. What a pointer or a length from C can break is said in include/thymebarrel.h; all else is promised as of
// every other function.
#![tactic(auto)]

ghost use Rattle.std.specs.Prelude.{◌≡◌};
ghost use Rattle.json_text.specs.Lookup.{look_up};
ghost use Rattle.json_lookup.specs.Finds.{place_of};
ghost use Rattle.c_calls.specs.Numbers.{bit, state_of};
ghost use Rattle.c_calls.specs.Promise.{given, told, call_given, CardGives, JsonGives, StepGives, EndGives};
ghost use Rattle.thymebarrel.specs.Given.{part_from, outcome_told, told_by, row_put, Tells};

use card_to_json::card_to_json;
use json_lookup::locate;
use json_to_card::json_to_card;
use served::Refusal;
use stream_cards::{Answered, Said, Stream};
use stream_reader::State;

// The number to answer; the refusal's place and the result's length stand behind the two pointers.
fn tell_outcome(r: Result<usize, Refusal>, place: &mut usize, written: &mut usize) -> u8
    ensures { told result place.new written.new ≡ outcome_told r }
{
    match r {
        Ok(n) => {
            *place = 0;
            *written = n;
            return 0;
        }
        Err(refusal) => {
            *place = refusal.place;
            *written = 0;
            return refusal.number;
        }
    }
}

// Card to JSON: answers the refusal number, 0 where the JSON stands at the front of `out`; the refusal's place and the JSON's length stand behind the last
// two pointers.
#[unsafe(no_mangle)]
pub extern "C" fn thymebarrel_card_to_json(
    stem: &[u8],
    number: usize,
    card: &[u8],
    out: &mut [u8],
    place: &mut usize,
    written: &mut usize,
) -> u8
    ensures { CardGives stem.now number card.now out.old (given result place.new written.new out.new) }
{
    let r = card_to_json(stem, number, card, out);
    tell_outcome(r, place, written)
}

// JSON to card, likewise: the card at the front of `out`.
#[unsafe(no_mangle)]
pub extern "C" fn thymebarrel_json_to_card(
    json: &[u8],
    out: &mut [u8],
    place: &mut usize,
    written: &mut usize,
) -> u8
    ensures { JsonGives json.now out.old (given result place.new written.new out.new) }
{
    let r = json_to_card(json, out);
    tell_outcome(r, place, written)
}

// The look-up: answers where the value of that top-level member begins in the JSON, with its length behind the last pointer; length 0 where there is none.
#[unsafe(no_mangle)]
pub extern "C" fn thymebarrel_member(json: &[u8], name: &[u8], length: &mut usize) -> usize
    ensures { part_from result length.new ≡ place_of (look_up json.now name.now) }
{
    let p = locate(json, name);
    let start = p.start;
    let end = p.end;
    *length = end - start;
    start
}

// How many numbers a state is for a caller.
const STATE: usize = 7;

// No state has this number.
const NO_NUMBER: usize = stream_reader::PAST + 1;

// What a call of the stream answers for more.
const MORE: u8 = 255;

// The state that a caller's seven numbers stand for; what are not seven are no state.
fn state_in(row: &[usize]) -> State
    ensures { result ≡ state_of row.now }
{
    if row.len() != STATE {
        return State {
            number: NO_NUMBER,
            inside: false,
            len: 0,
            col: 0,
            begins: true,
            ends: true,
            blank: true,
        };
    }
    State {
        number: row[0],
        inside: row[1] == 1,
        len: row[2],
        col: row[3],
        begins: !(row[4] == 1),
        ends: !(row[5] == 1),
        blank: !(row[6] == 1),
    }
}

fn bit_of(b: bool) -> usize
    ensures { result ≡ bit b }
{
    if b { 1 } else { 0 }
}

// The state as the caller's seven numbers.
fn put_state(row: &mut [usize], s: State)
    ensures { row.new ≡ row_put row.old s }
{
    if row.len() != STATE {
        return;
    }
    row[0] = s.number;
    row[1] = bit_of(s.inside);
    row[2] = s.len;
    row[3] = s.col;
    row[4] = bit_of(!s.begins);
    row[5] = bit_of(!s.ends);
    row[6] = bit_of(!s.blank);
}

// The same of what a call of the stream says; 255 is more.
fn tell(said: Said, place: &mut usize, written: &mut usize) -> u8
    ensures { told result place.new written.new ≡ told_by said }
{
    match said {
        Said::More => {
            *place = 0;
            *written = 0;
            return MORE;
        }
        Said::Answer(r) => {
            return tell_outcome(r, place, written);
        }
    }
}

// All that is told of a call of the stream. 15 and 16 leave the caller's numbers as they were.
fn tell_call(
    a: Answered,
    state: &mut [usize],
    consumed: &mut usize,
    place: &mut usize,
    written: &mut usize,
) -> u8
    ensures { Tells a state.old (told result place.new written.new) consumed.new state.new }
{
    *consumed = a.used;
    let said = a.said;
    let n = tell(said, place, written);
    if (n == 15) | (n == 16) {
        return n;
    }
    let next = a.next;
    put_state(state, next.state);
    n
}

// A call of the stream with a piece: answers 255 for more, 0 where a JSON stands at the front of `out`, or the refusal number; the bytes consumed, the refusal's
// place and the JSON's length stand behind the last three pointers.
#[unsafe(no_mangle)]
pub extern "C" fn thymebarrel_stream_step(
    state: &mut [usize],
    stem: &[u8],
    piece: &[u8],
    buffer: &mut [u8],
    out: &mut [u8],
    consumed: &mut usize,
    place: &mut usize,
    written: &mut usize,
) -> u8
    ensures { StepGives state.old stem.now piece.now buffer.old out.old (call_given (told result place.new written.new) consumed.new state.new buffer.new out.new) }
{
    let s = Stream {
        state: state_in(state),
    };
    let a = s.step(stem, piece, buffer, out);
    tell_call(a, state, consumed, place, written)
}

// An end call of the stream; it consumes nothing.
#[unsafe(no_mangle)]
pub extern "C" fn thymebarrel_stream_end(
    state: &mut [usize],
    stem: &[u8],
    buffer: &mut [u8],
    out: &mut [u8],
    consumed: &mut usize,
    place: &mut usize,
    written: &mut usize,
) -> u8
    ensures { EndGives state.old stem.now buffer.old out.old (call_given (told result place.new written.new) consumed.new state.new buffer.new out.new) }
{
    let s = Stream {
        state: state_in(state),
    };
    let a = s.end(stem, buffer, out);
    tell_call(a, state, consumed, place, written)
}
