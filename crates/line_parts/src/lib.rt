// TEXT values split at bare separators: how many parts there are, and whether one of them is filled.
#![tactic(auto)]

ghost use Rattle.std.specs.Prelude.{◌≡◌, ◌&&◌, not, eqb, leb, length};
ghost use Rattle.text.specs.Bytes.{any};
ghost use Rattle.line.specs.Text.{split_text};
ghost use Rattle.line_parts.specs.Parts.{other_than};

use line_text::part_end;

// Whether a byte is neither of two separators. An escaped one has a backslash before it: so this is whether a value between them is filled.
pub fn has_other(s: &[u8], d: u8, e: u8) -> bool
    ensures { result ≡ any (other_than d e) s.now }
{
    // No `any`: tried, and its proof did not close.
    for c in s {
        if (*c != d) & (*c != e) {
            return true;
        }
    }
    false
}

// At most n parts, at bare separators d.
pub fn few_parts(s: &[u8], d: u8, n: usize) -> bool
    ensures { result ≡ leb (length (split_text d s.now)) n }
{
    let mut at = 0;
    for _ in 0..n {
        let e = part_end(s, at, d);
        if e >= s.len() {
            return true;
        }
        at = e + 1;
    }
    false
}
