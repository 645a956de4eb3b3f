// A stream of cards as a program: standard input, of any length, goes to the stream in pieces; the stem is the argument, `reg` where there is none. One line
// goes out for each answer but more: the JSON, or a refusal's number and place.
#![tactic(auto)]

ghost use Rattle.std.specs.Prelude.{◌≤◌, length};

use named_file::{argument, is_given};
use served::Refusal;
use std::io;
use std::io::Read;
use stream_cards::{Answered, Said, Stream};

// How many bytes a piece has, but for the last.
const PIECE: u64 = 65536;

fn say_result(rt: &impl Print, out: &[u8], n: usize) -> io::Result<()> {
    if n <= out.len() {
        rt.write_all(&out[..n])?;
    }
    rt.write_all(b"\n")
}

fn say(rt: &impl Print, said: Said, out: &[u8]) -> io::Result<()> {
    match said {
        Said::More => Ok(()),
        Said::Answer(Ok(n)) => say_result(rt, out, n),
        Said::Answer(Err(Refusal { number, place })) => println!(rt; "{number} {place}"),
    }
}

// A call with a piece: what it consumes is of the piece.
fn step_within(s: Stream, stem: &[u8], piece: &[u8], buffer: &mut [u8], out: &mut [u8]) -> Answered
    ensures { result.used ≤ length piece.now }
{
    s.step(stem, piece, buffer, out)
}

// Calls with the rest of the piece until nothing of it is left: the stream after it. A bad stem (15) consumes nothing: then that one answer is enough, and
// no stream is given.
fn feed(
    rt: &impl Print,
    first: Stream,
    stem: &[u8],
    piece: &[u8],
    buffer: &mut [u8],
    out: &mut [u8],
) -> io::Result<Option<Stream>> {
    let mut s = first;
    let mut at = 0;
    while at < piece.len() {
        let a = step_within(s, stem, &piece[at..], buffer, out);
        say(rt, a.said, out)?;
        s = a.next;
        let used = a.used;
        if used == 0 {
            return Ok(None);
        }
        at += used;
    }
    Ok(Some(s))
}

// End calls until the stream is fresh. One that leaves no card open leaves it fresh, and two always do.
fn finish(
    rt: &impl Print,
    last: Stream,
    stem: &[u8],
    buffer: &mut [u8],
    out: &mut [u8],
) -> io::Result<()> {
    let a = last.end(stem, buffer, out);
    say(rt, a.said, out)?;
    let s = a.next;
    if s.state.inside {
        let b = s.end(stem, buffer, out);
        say(rt, b.said, out)?;
    }
    Ok(())
}

fn serve(rt: &HostRuntime, stem: &[u8]) -> io::Result<()> {
    let mut piece = Vec::new(rt.alloc());
    let mut buffer = [0u8; line_limits::CARD];
    let mut out = [0u8; json_limits::ROOM];
    let mut s = Stream::fresh();
    // every loop ends: this one after more pieces than any input has
    for _ in 0..u64::MAX {
        piece.clear();
        rt.stdin().take(PIECE).read_to_end(&mut piece)?;
        if piece.is_empty() {
            return finish(rt, s, stem, &mut buffer, &mut out);
        }
        let Some(next) = feed(rt, s, stem, piece.as_slice(), &mut buffer, &mut out)? else {
            break;
        };
        s = next;
    }
    Ok(())
}

fn main(rt: HostRuntime) -> io::Result<()> {
    if !is_given(&rt, 1) {
        return serve(&rt, b"reg");
    }
    let mut stem = [0u8; 4096];
    let Some(length) = argument(&rt, 1, "cards: the stem", &mut stem) else {
        return Ok(());
    };
    serve(&rt, &stem[..length])
}
