// Numbers of a JSON text, read by place.
// Loops count the place by hand: it is what they answer, and an iterator over the bytes would have to be turned back into it.
#![tactic(auto)]

ghost use Rattle.std.specs.Prelude.{◌≡◌, ◌≤◌, ◌<◌, length, drop};
ghost use Rattle.text.specs.Bytes.{is_digit};
ghost use Rattle.text.specs.Places.{Gives, Passes};
ghost use Rattle.json_text.specs.Syntax.{digits, opt, int, frac, sign, exp, number};
ghost use Rattle.json_numbers.specs.Power.{power};

use text::{DOT, MINUS, PLUS, Read, in_range, look};

// Other characters of numbers, as `look` gives them.
const CAPITAL_E: u16 = b'E' as u16;

const LETTER_E: u16 = b'e' as u16;

const ZERO: u16 = b'0' as u16;

const NINE: u16 = b'9' as u16;

fn is_digit(b: u16) -> bool
    ensures { result ≡ is_digit b }
{
    in_range(b, ZERO, NINE)
}

// The place after the digits at a place.
fn past_digits(s: &[u8], at: usize) -> usize
    requires { at ≤ length s.now }
    ensures { Passes is_digit s.now at result }
{
    let mut i = at;
    while is_digit(look(s, i)) {
        i += 1;
    }
    i
}

// One digit at least.
fn digits_end(s: &[u8], at: usize) -> Read
    requires { at ≤ length s.now }
    ensures { Gives s.now at (digits (drop at s.now)) result }
{
    if is_digit(look(s, at)) {
        return Ok(past_digits(s, at));
    }
    Err(at)
}

// The byte b, or nothing.
fn opt_end(s: &[u8], at: usize, b: u16) -> Read
    requires at_in_bounds { at ≤ length s.now }
    requires b_bound { b < 256 }
    ensures { Gives s.now at (opt b (drop at s.now)) result }
{
    if look(s, at) == b {
        return Ok(at + 1);
    }
    Ok(at)
}

// A 0, or digits.
fn int_end(s: &[u8], at: usize) -> Read
    requires { at ≤ length s.now }
    ensures { Gives s.now at (int (drop at s.now)) result }
{
    if look(s, at) == ZERO {
        return Ok(at + 1);
    }
    digits_end(s, at)
}

// A point and digits, or nothing.
fn frac_end(s: &[u8], at: usize) -> Read
    requires { at ≤ length s.now }
    ensures { Gives s.now at (frac (drop at s.now)) result }
{
    if look(s, at) == DOT {
        return digits_end(s, at + 1);
    }
    Ok(at)
}

// A sign, or nothing.
fn sign_end(s: &[u8], at: usize) -> Read
    requires { at ≤ length s.now }
    ensures { Gives s.now at (sign (drop at s.now)) result }
{
    if look(s, at) == PLUS {
        return Ok(at + 1);
    }
    opt_end(s, at, MINUS)
}

// After an e: a sign or nothing, and digits.
fn power_end(s: &[u8], at: usize) -> Read
    requires { at ≤ length s.now }
    ensures { Gives s.now at (power (drop at s.now)) result }
{
    let i = sign_end(s, at)?;
    digits_end(s, i)
}

// An exponent, or nothing.
fn exp_end(s: &[u8], at: usize) -> Read
    requires { at ≤ length s.now }
    ensures { Gives s.now at (exp (drop at s.now)) result }
{
    let b = look(s, at);
    if b == LETTER_E {
        return power_end(s, at + 1);
    }
    if b == CAPITAL_E {
        return power_end(s, at + 1);
    }
    Ok(at)
}

pub fn number_end(s: &[u8], at: usize) -> Read
    requires { at ≤ length s.now }
    ensures { Gives s.now at (number (drop at s.now)) result }
{
    let k = opt_end(s, at, MINUS)?;
    let j = int_end(s, k)?;
    let i = frac_end(s, j)?;
    exp_end(s, i)
}
