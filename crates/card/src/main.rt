// Card to JSON as a program: the card comes on standard input, the stem and the card number are the two arguments, `reg` and 1
// where there are none. Its JSON and one LF go out; or a refusal's number and place.
#![tactic(auto)]

use card_to_json::card_to_json;
use named_file::{argument, is_given};
use served::Refusal;
use std::io;
use std::io::Read;

// A decimal number of at most 999,999; else 0, which is no card number.
fn number_of(digits: &[u8]) -> usize {
    let mut n = 0;
    for c in digits {
        if !c.is_ascii_digit() || n > 99999 {
            return 0;
        }
        n = n * 10 + (*c - b'0') as usize;
    }
    n
}

fn say_result(rt: &impl Print, out: &[u8], n: usize) -> io::Result<()> {
    if n <= out.len() {
        rt.write_all(&out[..n])?;
    }
    rt.write_all(b"\n")
}

fn serve(rt: &HostRuntime, stem: &[u8], number: usize) -> io::Result<()> {
    // one byte more than the room, so that a longer card is seen to be longer
    let mut card = Vec::new(rt.alloc());
    rt.stdin()
        .take(line_limits::OVER as u64)
        .read_to_end(&mut card)?;
    let mut out = [0u8; json_limits::ROOM];
    match card_to_json(stem, number, card.as_slice(), &mut out) {
        Ok(k) => say_result(rt, &out, k),
        Err(Refusal { number, place }) => println!(rt; "{number} {place}"),
    }
}

fn main(rt: HostRuntime) -> io::Result<()> {
    if !is_given(&rt, 2) {
        return serve(&rt, b"reg", 1);
    }
    let mut stem = [0u8; 4096];
    let Some(length) = argument(&rt, 1, "card: the stem", &mut stem) else {
        return Ok(());
    };
    let mut digits = [0u8; 4096];
    let Some(count) = argument(&rt, 2, "card: the card number", &mut digits) else {
        return Ok(());
    };
    serve(&rt, &stem[..length], number_of(&digits[..count]))
}
