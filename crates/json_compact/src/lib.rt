// A JSON text in its compact form, piece by piece.
#![tactic(auto)]

ghost use Rattle.std.specs.Prelude.{◌≡◌, ◌≤◌, ◌<◌, length, drop};
ghost use Rattle.text.specs.Bytes.{code};
ghost use Rattle.text.specs.Places.{byte_at, Gives};
ghost use Rattle.output.specs.Put.{Puts};
ghost use Rattle.json_compact.specs.Compacts.{Compacts, WritesPiece};
ghost use Rattle.json_compact.specs.Squeezed.{piece};
ghost use Rattle.json_compact.specs.Stands.{Deletes, Stands};

use json_chars::{string_end, text_end};
use json_marks::is_space;
use json_write::put_requoted;
use output::{Full, put_byte, put_text};
use text::{QUOTE, Read, in_range, look};

// The piece at a place, where there is one.
fn put_piece(out: &mut [u8], s: &[u8], at: usize) -> Result<usize, Full>
    requires { at < length s.now }
    ensures { WritesPiece (piece (drop at s.now)) out.old result out.new }
{
    let b = look(s, at);
    if is_space(b) {
        return Ok(0);
    }
    if b == QUOTE {
        return put_requoted(out, s, at + 1);
    }
    put_byte(out, s[at])
}

// Where it ends.
fn piece_end(s: &[u8], at: usize) -> Read
    requires { at < length s.now }
    ensures { Gives s.now at (piece (drop at s.now)) result }
{
    let b = look(s, at);
    if is_space(b) {
        return Ok(at + 1);
    }
    if b == QUOTE {
        return string_end(s, at + 1);
    }
    if in_range(b, 0, 255) {
        return Ok(at + 1);
    }
    Err(at)
}

// Whether a DEL stands from a place to another: it alone of these bytes is spelled otherwise. No early way out: the loop is a vector loop.
fn has_delete(s: &[u8], from: usize, to: usize) -> bool
    requires from_le_to { from ≤ to }
    requires to_in_bounds { to ≤ length s.now }
    ensures { Deletes s.now from to result }
{
    let mut found = false;
    for k in from..to {
        found = found | (s[k] == 127);
    }
    found
}

// Past the string at a place, where it is written as it stands; the place itself where it is not.
fn string_run(s: &[u8], at: usize) -> usize
    requires at_in_bounds { at < length s.now }
    requires at_value { byte_at s.now at ≡ code "\"" }
    ensures { Stands s.now at result }
{
    let from = at + 1;
    let e = text_end(s, from);
    if look(s, e) != QUOTE {
        return at;
    }
    if has_delete(s, from, e) {
        return at;
    }
    e + 1
}

// Past the pieces that are written as they stand: most texts have no others.
fn run_end(s: &[u8], at: usize) -> usize
    requires { at ≤ length s.now }
    ensures { Stands s.now at result }
{
    let mut i = at;
    loop {
        let b = look(s, i);
        if is_space(b) {
            return i;
        }
        if b > 255 {
            return i;
        }
        if b != QUOTE {
            i += 1;
            continue;
        }
        let e = string_run(s, i);
        if e == i {
            return i;
        }
        i = e;
    }
}

// A run of pieces, copied whole. Where white space follows white space there is none, and then nothing is called.
fn put_run(out: &mut [u8], run: &[u8]) -> Result<usize, Full>
    ensures { Puts out.old run.now result out.new }
{
    if run.len() == 0 {
        return Ok(0);
    }
    put_text(out, run)
}

// The compact text of the value that a text holds: what stands as it is written is copied whole. (A text that is no JSON is written piece by piece too, up to
// where no piece is read.)
pub fn put_compact(out: &mut [u8], s: &[u8]) -> Result<usize, Full>
    ensures { Compacts s.now out.old result out.new }
{
    let mut at = 0;
    let mut i = 0;
    loop {
        let j = run_end(s, i);
        let m = put_run(&mut out[at..], &s[i..j])?;
        at += m;
        if j >= s.len() {
            return Ok(at);
        }
        let Ok(e) = piece_end(s, j) else {
            return Ok(at);
        };
        let n = put_piece(&mut out[at..], s, j)?;
        at += n;
        i = e;
    }
}
