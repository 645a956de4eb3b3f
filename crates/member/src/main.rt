// The look-up as a program: the member's name is the argument, the JSON comes on standard input; its value and one LF go out.
#![tactic(auto)]

use json_limits::OVER;
use json_lookup::look_up;
use named_file::argument;
use std::io;
use std::io::Read;

fn main(rt: HostRuntime) -> io::Result<()> {
    let mut name = [0u8; 4096];
    let Some(length) = argument(&rt, 1, "member: one argument, the member's name", &mut name) else {
        return Ok(());
    };
    // one byte more than the room, so that a longer text is seen to be longer
    let mut json = Vec::new(rt.alloc());
    rt.stdin().take(OVER as u64).read_to_end(&mut json)?;
    rt.write_all(look_up(json.as_slice(), &name[..length]))?;
    rt.write_all(b"\n")
}
