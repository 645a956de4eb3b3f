// Pieces of the line grammar, by place: a parameter value, and the names that no line has.
#![tactic(auto)]

ghost use Rattle.std.specs.Prelude.{◌≡◌, ◌≤◌, length};
ghost use Rattle.line_scan.specs.Places.{ValueAt};
ghost use Rattle.line.specs.Grammar.{is_frame_name};

use line_class::{Class, run_end};
use line_name::is_named;
use text::{QUOTE, look};

// A parameter value: where its bytes begin and end, quotes left out, and the place after it.
#[derive(Clone, Copy)]
pub struct Value {
    pub start: usize,
    pub end: usize,
    pub next: usize,
}

// None where no value begins there.
pub fn value_at(s: &[u8], at: usize) -> Option<Value>
    requires { at ≤ length s.now }
    ensures { ValueAt s.now at result }
{
    if look(s, at) == QUOTE {
        let a = at + 1;
        let e = run_end(s, a, Class::Quotable);
        if look(s, e) == QUOTE {
            return Some(Value {
                start: a,
                end: e,
                next: e + 1,
            });
        }
        return None;
    }
    let e = run_end(s, at, Class::Bare);
    Some(Value {
        start: at,
        end: e,
        next: e,
    })
}

// Lines named BEGIN or END are refused wherever they stand.
pub fn is_frame_name(name: &[u8]) -> bool
    ensures { result ≡ is_frame_name name.now }
{
    if is_named(name, b"begin") {
        return true;
    }
    is_named(name, b"end")
}
