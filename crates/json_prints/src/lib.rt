// Strings of a JSON text by their prints: whether one stands for the same as one of those that are noted, by their places and their prints. Every pair of prints
// is met, many at a time; bytes are compared only where prints are equal.
#![tactic(auto)]

ghost use Rattle.std.specs.Prelude.{◌≡◌, false, ◌+◌, ◌*◌, ◌≤◌, ◌<◌, length};
ghost use Rattle.json_strings.specs.Decoded.{decoded_at};
ghost use Rattle.json_prints.specs.Prints.{stir, printed, print_of, Absent, Sought, SoughtKey};

use json_strings::{Byte, equals, next_byte, same_text};

// A print with one byte more.
pub fn stirred(p: u32, b: u8) -> u32
    requires { p < 65536 }
    ensures value { result ≡ stir p b }
    ensures upper_bound { result < 65536 }
{
    (p * 40503 + (b as u32)) % 65536
}

// A print with two bytes more, in one step: 61393 is what 40503 times 40503 leaves by 65536.
pub fn stirred_twice(p: u16, b: u8, c: u8) -> u16
    ensures { result ≡ stir (stir p b) c }
{
    (((p as u32) * 61393 + ((b as u32) * 40503 + (c as u32))) % 65536) as u16
}

// The print of a string from a place on, where the print so far is `from`; 65536 where a surrogate is alone.
pub fn print_from(s: &[u8], at: usize, from: u32) -> u32
    requires at_in_bounds { at ≤ length s.now }
    requires from_bound { from < 65536 }
    ensures value { result ≡ print_of from (decoded_at s.now at) }
    ensures upper_bound { result ≤ 65536 }
{
    let mut i = at;
    let mut h = 0;
    let mut p = from;
    loop {
        match next_byte(s, i, h) {
            Byte::Alone => {
                return 65536;
            }
            Byte::End => {
                return p;
            }
            Byte::One {
                byte: b,
                next: j,
                held: g,
            } => {
                p = stirred(p, b);
                i = j;
                h = g;
            }
        }
    }
}

// The print of the string at a place; 65536 where it stands for nothing.
pub fn print_at(s: &[u8], at: usize) -> u32
    ensures value { result ≡ print_of 0 (decoded_at s.now at) }
    ensures upper_bound { result ≤ 65536 }
{
    if at > s.len() {
        return 65536;
    }
    print_from(s, at, 0)
}

// The print of some bytes, where the print so far is `from`.
pub fn print_of(from: usize, key: &[u8]) -> u16
    requires { from < 65536 }
    ensures { result ≡ printed from key.now }
{
    let mut p = from as u32;
    for &b in key {
        p = stirred(p, b);
    }
    p as u16
}

// Whether a print is among those from a place to another. No early way out: the loop is a vector loop.
pub fn any_print(prints: &[u16], p: u16, from: usize, to: usize) -> bool
    requires from_le_to { from ≤ to }
    requires to_in_bounds { to ≤ length prints.now }
    ensures { Absent prints.now p from to result }
{
    let mut found = false;
    for k in from..to {
        found = found | (prints[k] == p);
    }
    found
}

// Past the blocks of so many prints that have not this one. The caller writes their length out, so that the loop over a block is laid out without a jump.
fn past_blocks(prints: &[u16], p: u16, from: usize, to: usize, size: usize) -> usize
    requires from_le_to { from ≤ to }
    requires to_in_bounds { to ≤ length prints.now }
    requires size_nonzero { 0 < size }
    ensures { (from ≤ result) × (result ≤ to) × Absent prints.now p from result false }
{
    let mut k = from;
    while to - k >= size {
        let e = k + size;
        if any_print(prints, p, k, e) {
            return k;
        }
        k = e;
    }
    k
}

// The first place of a print from a place on, before another; that other where it is not there.
fn print_in(prints: &[u16], p: u16, from: usize, to: usize) -> usize
    requires from_le_to { from ≤ to }
    requires to_in_bounds { to ≤ length prints.now }
    ensures { (from ≤ result) × (result ≤ to) × Absent prints.now p from result false }
{
    for k in from..to {
        if prints[k] == p {
            return k;
        }
    }
    to
}

// The same in a long row, block by block. The last sixteen are a block again, so that no print is left over to be looked at alone.
fn print_in_row(prints: &[u16], p: u16, from: usize, to: usize) -> usize
    requires from_bound { from + 16 ≤ to }
    requires to_in_bounds { to ≤ length prints.now }
    ensures { (from ≤ result) × (result ≤ to) × Absent prints.now p from result false }
{
    let a = past_blocks(prints, p, from, to, 256);
    let b = past_blocks(prints, p, a, to, 64);
    let c = past_blocks(prints, p, b, to, 16);
    if to - c < 16 {
        if !any_print(prints, p, to - 16, to) {
            return to;
        }
    }
    print_in(prints, p, c, to)
}

// The first place of a print from a place on, before another; that other where it is not there. Most rows are short.
pub fn next_print(prints: &[u16], p: u16, from: usize, to: usize) -> usize
    requires from_le_to { from ≤ to }
    requires to_in_bounds { to ≤ length prints.now }
    ensures { (from ≤ result) × (result ≤ to) × Absent prints.now p from result false }
{
    if to - from < 16 {
        return print_in(prints, p, from, to);
    }
    print_in_row(prints, p, from, to)
}

fn wide(place: u16) -> usize
    ensures { result ≡ place }
{
    place as usize
}

// THE comparing of strings, oldest first: the string at `at`, of print `p`, stands for the same as that at one of the first `count` places noted.
pub fn is_noted<'a, 'b>(
    s: &'a [u8],
    at: usize,
    p: u16,
    places: &'b [u16],
    prints: &'b [u16],
    count: usize,
) -> bool
    requires count_in_bounds { count ≤ length places.now }
    requires count_in_bounds_2 { count ≤ length prints.now }
    requires p_value { p ≡ print_of 0 (decoded_at s.now at) }
    ensures { Sought s.now (decoded_at s.now at) places.now prints.now count result }
{
    let mut k = next_print(prints, p, 0, count);
    while k < count {
        if same_text(s, at, wide(places[k])) {
            return true;
        }
        k = next_print(prints, p, k + 1, count);
    }
    false
}

// The same, where places may be over 65535.
pub fn is_noted_wide<'a, 'b>(
    s: &'a [u8],
    at: usize,
    p: u16,
    places: &'b [usize],
    prints: &'b [u16],
    count: usize,
) -> bool
    requires count_in_bounds { count ≤ length places.now }
    requires count_in_bounds_2 { count ≤ length prints.now }
    requires p_value { p ≡ print_of 0 (decoded_at s.now at) }
    ensures { Sought s.now (decoded_at s.now at) places.now prints.now count result }
{
    let mut k = next_print(prints, p, 0, count);
    while k < count {
        if same_text(s, at, places[k]) {
            return true;
        }
        k = next_print(prints, p, k + 1, count);
    }
    false
}

// Whether some bytes are what one of the strings noted stands for.
pub fn is_key_noted<'a, 'b, 'c>(
    s: &'a [u8],
    key: &'b [u8],
    places: &'c [u16],
    prints: &'c [u16],
) -> bool
    requires { length places.now ≡ length prints.now }
    ensures { SoughtKey s.now key.now places.now prints.now result }
{
    let n = prints.len();
    let p = print_of(0, key);
    let mut k = next_print(prints, p, 0, n);
    while k < n {
        if equals(s, wide(places[k]), key) {
            return true;
        }
        k = next_print(prints, p, k + 1, n);
    }
    false
}
