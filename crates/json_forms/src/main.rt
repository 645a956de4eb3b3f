// Reads each JSON text that an argument names, and writes it in its compact form. Of an object or an array then each member or element:
// its name and its kind, a string decoded and written again, a number as it stands in the text.
#![tactic(auto)]

ghost use Rattle.std.specs.Prelude.{◌≤◌, length};

use json_access::{Kind, kind_at};
use json_compact::put_compact;
use json_limits::{DEPTH, OVER, ROOM};
use json_marks::mark;
use json_read::read;
use json_skip::skip_value;
use json_strings::decode_into;
use json_walk::{Element, Member, first_element, first_member, next_element, next_member};
use json_write::{put_member, put_number, put_string};
use named_file::{is_given, read_named};
use std::io;
use text::QUOTE;

fn say(rt: &impl Print, text: &[u8]) -> io::Result<()> {
    rt.write_all(text)
}

fn send(rt: &impl Print, out: &[u8], m: usize) -> io::Result<()> {
    if m <= out.len() {
        say(rt, &out[..m])?;
    }
    Ok(())
}

// The first n bytes as a string.
fn say_quoted(rt: &impl Print, bytes: &[u8], n: usize) -> io::Result<()> {
    if n > bytes.len() {
        return Ok(());
    }
    let mut out = [0u8; ROOM];
    let Ok(m) = put_string(&mut out, &bytes[..n]) else {
        return say(rt, b"no room");
    };
    send(rt, &out, m)
}

// The string from a place on (after its first quote), decoded and written again.
fn say_string(rt: &impl Print, s: &[u8], at: usize) -> io::Result<()> {
    let mut bytes = [0u8; ROOM];
    let Ok(n) = decode_into(&mut bytes, s, at) else {
        return say(rt, b"no room");
    };
    say_quoted(rt, &bytes, n)
}

fn say_kind(rt: &impl Print, k: &Kind) -> io::Result<()> {
    match k {
        Kind::Null => say(rt, b"null"),
        Kind::True => say(rt, b"true"),
        Kind::False => say(rt, b"false"),
        Kind::Number => say(rt, b"number"),
        Kind::String => say(rt, b"string"),
        Kind::Array => say(rt, b"array"),
        Kind::Object => say(rt, b"object"),
    }
}

// The kind of a value that stands from `start` to `end`, and a string or a number itself.
fn say_value(rt: &impl Print, s: &[u8], start: usize, end: usize) -> io::Result<()>
    requires start_le_end { start ≤ end }
    requires end_in_bounds { end ≤ length s.now }
{
    let k = kind_at(s, start);
    say_kind(rt, &k)?;
    if let Kind::Number = k {
        say(rt, b" ")?;
        say(rt, &s[start..end])?;
    }
    if let Kind::String = k {
        if let Ok(q) = mark(s, start, QUOTE) {
            say(rt, b" ")?;
            say_string(rt, s, q)?;
        }
    }
    say(rt, b"\n")
}

// The members of the text, where it is an object.
fn say_members(rt: &impl Print, s: &[u8]) -> io::Result<()> {
    let mut m = first_member(s, 0);
    while let Member::At { name, start } = m {
        let end = skip_value(s, start);
        say(rt, b"  ")?;
        say_string(rt, s, name)?;
        say(rt, b" ")?;
        say_value(rt, s, start, end)?;
        m = next_member(s, end);
    }
    Ok(())
}

// Its elements, where it is an array.
fn say_elements(rt: &impl Print, s: &[u8]) -> io::Result<()> {
    let mut m = first_element(s, 0);
    while let Element::At { start } = m {
        let end = skip_value(s, start);
        say(rt, b"  ")?;
        say_value(rt, s, start, end)?;
        m = next_element(s, end);
    }
    Ok(())
}

fn say_named(rt: &impl Print, name: &[u8], text: &[u8]) -> io::Result<()> {
    let mut out = [0u8; 32768];
    let Ok(m) = put_member(&mut out, name, text) else {
        return say(rt, b"no room");
    };
    send(rt, &out, m)
}

fn say_number(rt: &impl Print, n: usize) -> io::Result<()> {
    let mut out = [0u8; 20];
    let Ok(m) = put_number(&mut out, n) else {
        return say(rt, b"no room");
    };
    send(rt, &out, m)
}

// A text that is JSON, and last its file and how long its compact form is.
fn show(rt: &impl Print, file: &[u8], s: &[u8]) -> io::Result<()> {
    let mut out = [0u8; ROOM];
    let Ok(m) = put_compact(&mut out, s) else {
        return say(rt, b"no room\n");
    };
    send(rt, &out, m)?;
    say(rt, b"\n")?;
    say_members(rt, s)?;
    say_elements(rt, s)?;
    say(rt, b"{")?;
    say_named(rt, b"file", file)?;
    say(rt, b",\"bytes\":")?;
    say_number(rt, m)?;
    say(rt, b"}\n")
}

fn tell(rt: &impl Print, file: &[u8], s: &[u8]) -> io::Result<()> {
    match read(s, DEPTH) {
        Ok(_) => show(rt, file, s),
        Err(_) => say(rt, b"refused\n"),
    }
}

// One text: the file that the argument k names.
fn case(rt: &HostRuntime, k: usize) -> io::Result<()> {
    let mut path = [0u8; 4096];
    let mut buf = [0u8; OVER];
    let Some(file) = read_named(rt, k, &mut path, &mut buf) else {
        return Ok(());
    };
    let name = &path[..file.path];
    say(rt, name)?;
    say(rt, b"\n")?;
    tell(rt, name, &buf[..file.text])
}

fn main(rt: HostRuntime) -> io::Result<()> {
    for k in 1..usize::MAX {
        if !is_given(&rt, k) {
            break;
        }
        case(&rt, k)?;
    }
    Ok(())
}
