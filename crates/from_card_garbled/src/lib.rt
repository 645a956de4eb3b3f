// Refusal 4: the first unfolded line that is not UTF-8 or has a control.
#![tactic(auto)]

ghost use Rattle.std.specs.Prelude.{◌≡◌, ◌||◌, ◌&&◌, not};
ghost use Rattle.text.specs.Bytes.{any, flat};
ghost use Rattle.text.specs.Utf8.{utf8};
ghost use Rattle.line.specs.Class.{is_control};
ghost use Rattle.from_card_garbled.specs.Garbled.{OfLines, TellsGarbled};

use line_class::{has_control, has_odd, is_garbled};
use line_unfold::line_at;
use utf8::is_utf8;

// The bytes of all lines.
fn all_lines<'a, 'b>(scratch: &'a [u8], starts: &'b [usize], n: usize) -> &'a [u8]
    ensures { OfLines scratch.now starts.now n (λ raw. result.now ≡ flat raw) }
{
    if starts.len() <= n {
        return &scratch[0..0];
    }
    let end = starts[n];
    if scratch.len() < end {
        return &scratch[0..0];
    }
    &scratch[0..end]
}

// Whether the line is not UTF-8 or has a control, which is not asked again where no line has one.
fn is_garbled_in(line: &[u8], clean: bool) -> bool
    ensures { result ≡ (not (utf8 line.now) || (not clean && any is_control line.now)) }
{
    if clean {
        return !is_utf8(line);
    }
    is_garbled(line)
}

// The number of that line, VERSION being 1.
pub fn first_garbled(scratch: &[u8], starts: &[usize], n: usize) -> Option<usize>
    ensures { TellsGarbled scratch.now starts.now n result }
{
    let all = all_lines(scratch, starts, n);
    // No control and only ASCII in all lines: one loop over their bytes, true for most cards.
    if !has_odd(all) {
        return None;
    }
    let clean = !has_control(all);
    for k in 0..n {
        if is_garbled_in(line_at(scratch, starts, k), clean) {
            return Some(k + 1);
        }
    }
    None
}
