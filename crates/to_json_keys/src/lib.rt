// Keys made for entries without a PROP-ID: prefix, hyphen and the next number that no PROP-ID of the map takes. Made numbers only grow within a map.
#![tactic(auto)]

ghost use Rattle.std.specs.Prelude.{◌≡◌, ◌∷◌, [], ◌+◌, ◌≤◌, ◌<◌, length};
ghost use Rattle.text.specs.Bytes.{code};
ghost use Rattle.output.specs.Put.{Puts};
ghost use Rattle.convert.specs.Keys.{numbered};
ghost use Rattle.to_json_keys.specs.Taken.{Spells, Numbers, Marks, NextFree, Nexts};

use convert_tests::same_bytes;
use json_write::put_number;
use line_limits::LINES;
use output::{Full, put_byte, put_text};

// A made key.
pub fn put_key(out: &mut [u8], prefix: &[u8], n: usize) -> Result<usize, Full>
    ensures { Puts out.old (numbered prefix.now n) result out.new }
{
    let a = put_text(out, prefix)?;
    let b = put_byte(&mut out[a..], b'-')?;
    let ab = a + b;
    let c = put_number(&mut out[ab..], n)?;
    let abc = ab + c;
    Ok(abc)
}

// What a digit stands for.
fn digit(b: u8) -> usize
    requires { code "0" ≤ b }
    ensures { result + code "0" ≡ b }
{
    (b - b'0') as usize
}

// No made key has a greater number: a map has as many entries as a card has lines at most, and as many PROP-IDs may take a number.
const LAST: usize = 2 * LINES;

// With one digit more, a greater number is over the last.
const TENTH: usize = LAST / 10;

// The length of a row of marks, one for each number.
pub const ROW: usize = LAST + 1;

// The number from 1 to the last that is spelled so, without a leading zero; else 0.
fn spelled_number(d: &[u8]) -> usize
    ensures { Spells d.now result }
{
    if d.len() == 0 {
        return 0;
    }
    let first = d[0];
    if first < b'1' {
        return 0;
    }
    if first > b'9' {
        return 0;
    }
    let mut n = digit(first);
    for i in 1..d.len() {
        let b = d[i];
        if b < b'0' {
            return 0;
        }
        if b > b'9' {
            return 0;
        }
        if n > TENTH {
            return 0;
        }
        n = n * 10 + digit(b);
    }
    if n > LAST {
        return 0;
    }
    n
}

// The number from 1 to the last whose made key is that key; else 0.
fn number_of(prefix: &[u8], key: &[u8]) -> usize
    ensures { Numbers prefix.now key.now result }
{
    let p = prefix.len();
    if key.len() <= p {
        return 0;
    }
    if !same_bytes(prefix, &key[0..p]) {
        return 0;
    }
    if key[p] != b'-' {
        return 0;
    }
    let from = p + 1;
    spelled_number(&key[from..])
}

// Marks the number of a PROP-ID of the map as taken. (Place 0 of the row stands for no number, and is not looked at.)
pub fn mark_key(row: &mut [u8], prefix: &[u8], key: &[u8]) -> usize
    requires { 1025 ≤ length row.old }
    ensures { Marks prefix.now key.now row.old row.new }
{
    let n = number_of(prefix, key);
    row[n] = 1;
    n
}

// The first place from there on that is not marked.
fn next_free(row: &[u8], from: usize) -> usize
    ensures { NextFree row.now from result }
{
    let mut j = from;
    while j < row.len() {
        if row[j] != 1 {
            return j;
        }
        j += 1;
    }
    j
}

// The number of the next made key, where the last one was below `from`. Without a PROP-ID in the map there is nothing to look up.
pub fn next_number(row: &[u8], taken: bool, from: usize) -> usize
    ensures { Nexts row.now taken from result }
{
    if !taken {
        return from;
    }
    next_free(row, from)
}
