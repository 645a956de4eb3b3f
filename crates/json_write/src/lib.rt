// Compact JSON: strings, numbers, names and members, each written to a lent part of the output. (`output::put_text` writes true, false and null.)
#![tactic(auto)]

ghost use Rattle.std.specs.Prelude.{◌≡◌, true, ◌∷◌, [], ◌+◌, ◌≤◌, ◌<◌, length, drop};
ghost use Rattle.text.specs.Bytes.{ascii, code};
ghost use Rattle.text.specs.Reader.{taken};
ghost use Rattle.output.specs.Put.{Puts};
ghost use Rattle.text.specs.Decimal.{decimal};
ghost use Rattle.json_text.specs.Compact.{hex_digit, spelled, spelled_all, quoted};
ghost use Rattle.json_write.specs.Pieces.{coded, bare, BareFor, run_at};
ghost use Rattle.json_strings.specs.Decoded.{text_at};

use json_strings::{Byte, copy_sixteen, is_paired, next_byte};
use output::{Full, put_byte, put_text};

fn hex_digit(d: u8) -> u8
    requires { d < 16 }
    ensures { result ≡ hex_digit d }
{
    if d < 10 { b'0' + d } else { 87 + d }
}

// A byte by its number.
fn put_code(out: &mut [u8], c: u8) -> Result<usize, Full>
    ensures { Puts out.old (coded c) result out.new }
{
    let g = [
        b'\\',
        b'u',
        b'0',
        b'0',
        hex_digit(c / 16),
        hex_digit(c % 16),
    ];
    put_text(out, &g)
}

// A byte of a string, escaped where it must be: the rare one.
fn put_escaped(out: &mut [u8], c: u8) -> Result<usize, Full>
    ensures { Puts out.old (spelled c) result out.new }
{
    if c == b'"' {
        return put_text(out, b"\\\"");
    }
    if c == b'\\' {
        return put_text(out, b"\\\\");
    }
    if c == 8 {
        return put_text(out, b"\\b");
    }
    if c == 9 {
        return put_text(out, b"\\t");
    }
    if c == 10 {
        return put_text(out, b"\\n");
    }
    if c == 12 {
        return put_text(out, b"\\f");
    }
    if c == 13 {
        return put_text(out, b"\\r");
    }
    if (c < 32) | (c == 127) {
        return put_code(out, c);
    }
    put_byte(out, c)
}

// A byte that stands for itself in a string.
fn is_bare(c: u8) -> bool
    ensures { result ≡ bare c }
{
    !((c == b'"') | (c == b'\\') | (c < 32) | (c == 127))
}

// A byte of a string: small, so that a loop over bytes has the bare byte in it and the rare one behind a call.
pub fn put_byte_spelled(out: &mut [u8], c: u8) -> Result<usize, Full>
    ensures { Puts out.old (spelled c) result out.new }
{
    if is_bare(c) {
        return put_byte(out, c);
    }
    put_escaped(out, c)
}

// The bytes from `at` on, up to the first that does not stand for itself: byte by byte.
fn bare_from(out: &mut [u8], s: &[u8], at: usize) -> Result<usize, Full>
    ensures { Puts out.old (taken bare (drop at s.now)) result out.new }
{
    let mut k = 0;
    for i in at..s.len() {
        let c = s[i];
        if !is_bare(c) {
            return Ok(k);
        }
        if k >= out.len() {
            return Err(Full);
        }
        out[k] = c;
        k += 1;
    }
    Ok(k)
}

// Whether sixteen bytes all stand for themselves. No early way out: one test of a vector.
fn are_bare(s: &[u8], at: usize) -> bool
    requires { at + 16 ≤ length s.now }
    ensures { result ≡ true → BareFor s.now at 16 }
{
    let mut all = true;
    for k in 0..16 {
        all = all & is_bare(s[at + k]);
    }
    all
}

// Whether sixteen bytes stand there that all stand for themselves, and there is room for them.
fn has_run(room: usize, s: &[u8], at: usize) -> bool
    ensures { result ≡ true → (16 ≤ room) × (at + 16 ≤ length s.now) × BareFor s.now at 16 }
{
    if room < 16 {
        return false;
    }
    if s.len() <= at {
        return false;
    }
    if s.len() - at < 16 {
        return false;
    }
    are_bare(s, at)
}

// The bytes from `at` on, up to the first that does not stand for itself.
pub fn put_bare(out: &mut [u8], s: &[u8], at: usize) -> Result<usize, Full>
    ensures { Puts out.old (taken bare (drop at s.now)) result out.new }
{
    let mut k = 0;
    let mut i = at;
    while has_run(out.len() - k, s, i) {
        copy_sixteen(out, k, s, i);
        k += 16;
        i += 16;
    }
    let n = bare_from(&mut out[k..], s, i)?;
    let kn = k + n;
    Ok(kn)
}

// A string without its quotes.
pub fn put_spelled(out: &mut [u8], s: &[u8]) -> Result<usize, Full>
    ensures { Puts out.old (spelled_all s.now) result out.new }
{
    let mut at = 0;
    let mut i = 0;
    loop {
        let m = put_bare(&mut out[at..], s, i)?;
        at += m;
        i += m;
        if i >= s.len() {
            return Ok(at);
        }
        let n = put_escaped(&mut out[at..], s[i])?;
        at += n;
        i += 1;
    }
}

// A string. (A slice that is made for a call goes over as two words; one that is handed on waits until it is copied.)
pub fn put_string(out: &mut [u8], s: &[u8]) -> Result<usize, Full>
    ensures { Puts out.old (quoted s.now []) result out.new }
{
    let a = put_byte(out, b'"')?;
    let b = put_spelled(&mut out[a..], &s[0..])?;
    let ab = a + b;
    let c = put_byte(&mut out[ab..], b'"')?;
    let abc = ab + c;
    Ok(abc)
}

// The name of a member, with its colon.
pub fn put_name(out: &mut [u8], s: &[u8]) -> Result<usize, Full>
    ensures { Puts out.old (quoted s.now (ascii ":")) result out.new }
{
    let a = put_string(out, s)?;
    let b = put_byte(&mut out[a..], b':')?;
    let ab = a + b;
    Ok(ab)
}

// A member whose value is a string.
pub fn put_member(out: &mut [u8], name: &[u8], text: &[u8]) -> Result<usize, Full>
    ensures { Puts out.old (quoted name.now (code ":" ∷ quoted text.now [])) result out.new }
{
    let a = put_name(out, name)?;
    let b = put_string(&mut out[a..], text)?;
    let ab = a + b;
    Ok(ab)
}

// A number in decimal.
pub fn put_number(out: &mut [u8], n: usize) -> Result<usize, Full>
    ensures { Puts out.old (decimal n) result out.new }
{
    if n < 10 {
        return put_byte(out, b'0' + n as u8);
    }
    let a = put_number(out, n / 10)?;
    let b = put_byte(&mut out[a..], b'0' + (n % 10) as u8)?;
    let ab = a + b;
    Ok(ab)
}

// The bytes from a place on that stand for themselves, both where they are read and where they are written. None where bytes are held, which come first; none,
// and no block is looked at, where an escape follows another.
fn put_run(out: &mut [u8], s: &[u8], at: usize, hold: u32) -> Result<usize, Full>
    ensures { Puts out.old (run_at s.now at hold) result out.new }
{
    if hold != 0 {
        return Ok(0);
    }
    if at >= s.len() {
        return Ok(0);
    }
    if s[at] == b'\\' {
        return Ok(0);
    }
    put_bare(out, s, at)
}

// The string from a place on (after its first quote), without its quotes and spelled anew. Nothing is written where it stands for nothing, as
// in `json_strings`.
fn put_respelled(out: &mut [u8], s: &[u8], from: usize) -> Result<usize, Full>
    ensures { Puts out.old (spelled_all (text_at s.now from)) result out.new }
{
    if !is_paired(s, from) {
        return Ok(0);
    }
    let mut at = 0;
    let mut i = from;
    let mut h = 0;
    loop {
        let m = put_run(&mut out[at..], s, i, h)?;
        at += m;
        i += m;
        match next_byte(s, i, h) {
            Byte::Alone => {
                return Ok(at);
            }
            Byte::End => {
                return Ok(at);
            }
            Byte::One {
                byte: b,
                next: j,
                held: g,
            } => {
                let n = put_byte_spelled(&mut out[at..], b)?;
                at += n;
                i = j;
                h = g;
            }
        }
    }
}

// The same with its quotes.
pub fn put_requoted(out: &mut [u8], s: &[u8], from: usize) -> Result<usize, Full>
    ensures { Puts out.old (quoted (text_at s.now from) []) result out.new }
{
    let a = put_byte(out, b'"')?;
    let b = put_respelled(&mut out[a..], s, from)?;
    let ab = a + b;
    let c = put_byte(&mut out[ab..], b'"')?;
    let abc = ab + c;
    Ok(abc)
}
