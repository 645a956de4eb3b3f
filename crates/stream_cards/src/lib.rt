// A stream of cards, each to JSON: a call with a piece and an end call, the state by value.
#![tactic(auto)]

ghost use Rattle.std.specs.Prelude.{◌≡◌, length};
ghost use Rattle.stream_machine.specs.Turn.{unfit, answered, output_after, given_by};
ghost use Rattle.stream_cards.specs.Promise.{FreshGives, StepGives, EndGives, said_of, answer_of, refused_as, InBuffer};

use card_to_json::card_to_json;
use from_card_stem::is_stem;
use json_limits::ROOM;
use served::Refusal;
use stream_reader::{CAP, Event, Fed, State};

// The stream's state, handed in and handed back by value.
#[derive(Drop)]
pub struct Stream {
    pub state: State,
}

// More, or an answer as to one card: both are document 01's words for what a call of a stream answers, so no Option.
#[derive(Drop)]
pub enum Said {
    More,
    Answer(Result<usize, Refusal>),
}

// What is said, how many bytes of the piece were consumed, and the next state.
#[derive(Drop)]
pub struct Answered {
    pub said: Said,
    pub used: usize,
    pub next: Stream,
}

// Refusal 16.
fn is_unfit(s: State, room: usize, lent: usize) -> bool
    ensures { result ≡ unfit s room lent }
{
    (room < CAP) | ((lent < ROOM) | !s.in_range())
}

// A refusal at entry: nothing is consumed, and the state is as it was.
fn refused(n: u8, s: Stream) -> Answered
    ensures { result ≡ refused_as n s }
{
    Answered {
        said: Said::Answer(Err(Refusal {
            number: n,
            place: 0,
        })),
        used: 0,
        next: s,
    }
}

// What an event is answered: a whole card is converted from the card buffer into the output.
fn say(event: Event, stem: &[u8], buffer: &[u8], out: &mut [u8]) -> Said
    requires { InBuffer event (length buffer.now) }
    ensures value { result ≡ said_of (answered stem.now buffer.now (length out.old) event) }
    ensures out_after { out.new ≡ output_after out.old (answered stem.now buffer.now (length out.old) event) }
{
    match event {
        Event::More => Said::More,
        Event::Refused(n) => Said::Answer(Err(Refusal {
            number: n,
            place: 0,
        })),
        Event::Card { number, len } => {
            let r = card_to_json(stem, number, &buffer[0..len], out);
            Said::Answer(r)
        }
    }
}

// What the bytes came to, as a call's answer.
fn finish(f: Fed, stem: &[u8], buffer: &[u8], out: &mut [u8]) -> Answered
    requires { InBuffer f.event (length buffer.now) }
    ensures value { result ≡ answer_of (given_by stem.now out.old (f, buffer.now)) }
    ensures out_after { out.new ≡ (given_by stem.now out.old (f, buffer.now)).output }
{
    let event = f.event;
    let next = f.next;
    let said = say(event, stem, buffer, out);
    Answered {
        said: said,
        used: f.used,
        next: Stream { state: next },
    }
}

impl Stream {
    // No card yet, no line begun.
    pub fn fresh() -> Stream
        ensures { FreshGives result }
    {
        Stream {
            state: State::fresh(),
        }
    }

    // A call with a piece: it is read until a line answers, else all of it.
    pub fn step(self, stem: &[u8], piece: &[u8], buffer: &mut [u8], out: &mut [u8]) -> Answered
        ensures { StepGives self stem.now piece.now buffer.old out.old result buffer.new out.new }
    {
        let s = self.state;
        if is_unfit(s, buffer.len(), out.len()) {
            return refused(16, self);
        }
        if !is_stem(stem) {
            return refused(15, self);
        }
        let f = s.feed(buffer, piece);
        finish(f, stem, buffer, out)
    }

    // An end call: one LF is supposed.
    pub fn end(self, stem: &[u8], buffer: &mut [u8], out: &mut [u8]) -> Answered
        ensures { EndGives self stem.now buffer.old out.old result buffer.new out.new }
    {
        let s = self.state;
        if is_unfit(s, buffer.len(), out.len()) {
            return refused(16, self);
        }
        if !is_stem(stem) {
            return refused(15, self);
        }
        let f = s.close(buffer);
        finish(f, stem, buffer, out)
    }
}
