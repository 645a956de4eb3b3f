// What every part of a card answers, and a line whose value is one string of the JSON text.
#![tactic(auto)]

ghost use Rattle.to_card_lines.specs.Lines.{StringLine};

use line_pen::{fill, pen_bytes};
use to_card_pen::pen_string;

// How many bytes were written, how many lines, and whether lines can carry what they say (13 otherwise). A part of a card answers these, or 12.
#[derive(Drop)]
pub struct Lines {
    pub bytes: usize,
    pub lines: usize,
    pub carries: bool,
}

// How many bytes of a line were written, its end included, and whether a line can carry its strings.
#[derive(Drop)]
pub struct Penned {
    pub bytes: usize,
    pub carried: bool,
}

// A line that begins with `head` and whose value is the string at a place, in a style of `to_card_pen`.
pub fn put_string_line(out: &mut [u8], head: &[u8], style: u8, s: &[u8], at: usize) -> Penned
    ensures { StringLine s.now at style head.now out.old result out.new }
{
    let p = pen_bytes(out, 0, head);
    let n1 = p.bytes;
    let q = pen_string(&mut out[n1..], p.column, style, s, at);
    let n2 = n1 + q.bytes;
    let z = fill(&mut out[n2..], b"\r\n");
    let n3 = n2 + z;
    let ok = q.carried;
    Penned {
        bytes: n3,
        carried: ok,
    }
}
