// For programs: an argument as bytes, and the file that an argument names.
#![tactic(auto)]

ghost use Rattle.std.specs.Prelude.{IfSome};
ghost use Rattle.std.specs.Io.{ReadsAtMost};
ghost use Rattle.named_file.specs.Counts.{IsPrefixLen};

use std::env::FillError;
use std::io::Read;
use std::rt::{Env, Files};
use std::{fs, io};

// How many bytes the path and the text of a file have.
#[derive(Clone, Copy)]
pub struct Named {
    pub path: usize,
    pub text: usize,
}

// Whether the program has an argument k.
pub fn is_given(rt: &impl Env, k: usize) -> bool {
    !matches!(rt.arg(k, &mut []), Err(FillError::NotPresent))
}

// The argument k goes to the front of `room`, and its length comes back. Why there is none is told on standard error, after `what`.
pub fn argument(rt: &(impl Env + Eprint), k: usize, what: &str, room: &mut [u8]) -> Option<usize>
    ensures { IfSome result (λ n. IsPrefixLen n room.new) }
{
    match rt.arg(k, room) {
        Ok(n) => Some(n),
        Err(FillError::NotPresent) => {
            let _ = eprintln!(rt; "{what}: Invalid argument");
            None
        }
        Err(FillError::TooLong) => {
            let _ = eprintln!(rt; "{what}: File name too long");
            None
        }
    }
}

// The path goes to `path`, and what the file has, as far as it fits, to `room`. Why there is no file is told on standard error.
pub fn read_named(
    rt: &(impl Env + Files + Eprint),
    k: usize,
    path: &mut [u8],
    room: &mut [u8],
) -> Option<Named>
    ensures path { IfSome result (λ named. IsPrefixLen named.path path.new) }
    ensures text { IfSome result (λ named. IsPrefixLen named.text room.new) }
{
    let p = argument(rt, k, "argument", path)?;
    let n = read_file(rt, &path[..p], room)?;
    Some(Named { path: p, text: n })
}

// How many bytes of the file stand at the front of `room`.
fn read_file(rt: &(impl Files + Eprint), path: &[u8], room: &mut [u8]) -> Option<usize>
    ensures { IfSome result (λ n. IsPrefixLen n room.new) }
{
    let Ok(name) = str::from_utf8(path) else {
        let _ = eprintln!(rt; "argument: a path that is not UTF-8");
        return None;
    };
    match read_path(rt, name, room) {
        Ok(n) => Some(n),
        Err(e) => {
            let _ = eprintln!(rt; "{name}: {e}");
            None
        }
    }
}

fn read_path(rt: &impl Files, name: &str, room: &mut [u8]) -> io::Result<usize>
    ensures { ReadsAtMost result room.new }
{
    let mut file = fs::open(rt, name)?;
    Ok(read_full(&mut file, room))
}

// Reads until the room is full, or the bytes end, or a read fails: how many stand at its front.
fn read_full(from: &mut impl Read, room: &mut [u8]) -> usize
    ensures { IsPrefixLen result room.new }
{
    let mut done = 0;
    while done < room.len() {
        let Ok(n) = from.read(&mut room[done..]) else {
            break;
        };
        if n == 0 {
            break;
        }
        done += n;
    }
    done
}
