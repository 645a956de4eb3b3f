// JSON to card as a program: the JSON comes on standard input, its card goes out; or a refusal's number and place, and one LF.
#![tactic(auto)]

use json_to_card::json_to_card;
use served::Refusal;
use std::io;
use std::io::Read;

fn say_card(rt: &impl Print, out: &[u8], n: usize) -> io::Result<()> {
    if n <= out.len() {
        rt.write_all(&out[..n])?;
    }
    Ok(())
}

fn main(rt: HostRuntime) -> io::Result<()> {
    // one byte more than the room, so that a longer text is seen to be longer
    let mut json = Vec::new(rt.alloc());
    rt.stdin()
        .take(json_limits::OVER as u64)
        .read_to_end(&mut json)?;
    let mut out = [0u8; line_limits::CARD];
    match json_to_card(json.as_slice(), &mut out) {
        Ok(k) => say_card(&rt, &out, k),
        Err(Refusal { number, place }) => println!(rt; "{number} {place}"),
    }
}
