// Reads each file that an argument names, and writes its name and the reader's verdict on it, with depth 16.
#![tactic(auto)]

use json_limits::{DEPTH, OVER};
use json_read::{Fault, read};
use named_file::{is_given, read_named};
use std::io;

fn tell(rt: &impl Print, v: Result<(), Fault>) -> io::Result<()> {
    match v {
        Ok(_) => println!(rt; "json"),
        Err(Fault::Large) => println!(rt; "3"),
        Err(Fault::NotJson(at)) => println!(rt; "11 at {at}"),
    }
}

// One text: the file that the argument k names.
fn case(rt: &HostRuntime, k: usize) -> io::Result<()> {
    let mut path = [0u8; 4096];
    let mut buf = [0u8; OVER];
    let Some(file) = read_named(rt, k, &mut path, &mut buf) else {
        return Ok(());
    };
    rt.write_all(&path[..file.path])?;
    rt.write_all(b": ")?;
    tell(rt, read(&buf[..file.text], DEPTH))
}

fn main(rt: HostRuntime) -> io::Result<()> {
    for k in 1..usize::MAX {
        if !is_given(&rt, k) {
            break;
        }
        case(&rt, k)?;
    }
    Ok(())
}
