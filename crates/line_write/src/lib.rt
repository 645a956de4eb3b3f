// Where a line is folded: at 75 bytes at the latest whole character.
#![tactic(auto)]

ghost use Rattle.std.specs.Prelude.{◌≡◌};
ghost use Rattle.line.specs.Write.{width, breaks};

// The bytes of a character, by its first; 0 for a later byte of one.
fn char_width(c: u8) -> usize
    ensures { result ≡ width c }
{
    if c < 128 {
        return 1;
    }
    if c < 192 {
        return 0;
    }
    if c < 224 {
        return 2;
    }
    if c < 240 {
        return 3;
    }
    4
}

// Whether the line is folded before c, which stands after so many bytes.
pub fn folds_before(column: usize, c: u8) -> bool
    ensures { result ≡ breaks column (width c) }
{
    let w = char_width(c);
    if w == 0 {
        return false;
    }
    if w > 75 {
        return true;
    }
    column > 75 - w
}
