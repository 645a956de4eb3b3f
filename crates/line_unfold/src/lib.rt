// Unfolding: the lines between BEGIN and END into a lent scratch, and where each begins into a table.
#![tactic(auto)]

ghost use Rattle.std.specs.Prelude.{◌≡◌, ◌+◌, ◌≤◌, ◌<◌};
ghost use Rattle.std.proofs.Math.ListN.{length};
ghost use Rattle.text.specs.Reader.{first};
ghost use Rattle.line.specs.Class.{is_blank};
ghost use Rattle.line.specs.Physical.{physical};
ghost use Rattle.line.specs.Unfold.{unfold'};
ghost use Rattle.line_unfold.specs.Table.{Adds, Unfolds, line_at};

use line_class::{Class, in_class};
use line_frame::next_line;

// A card has more lines than are taken.
#[derive(Clone, Copy)]
pub struct TooMany;

// Whether a physical line goes on with the line before it.
fn folds(line: &[u8]) -> bool
    ensures { result ≡ is_blank (first line.now) }
{
    if line.len() == 0 {
        return false;
    }
    in_class(line[0], Class::Blank)
}

// Adds src to what stands before `at`. There is room: no early way out, so the loop copies by vectors.
fn append(out: &mut [u8], at: usize, src: &[u8]) -> usize
    requires { at + length src.now ≤ length out.old }
    ensures { Adds out.old at src.now result out.new }
{
    for i in 0..src.len() {
        out[at + i] = src[i];
    }
    at + src.len()
}

// How many lines; the table has the start of each line, and the end of the last. At most `most` lines are taken, so that a short table does for few lines.
pub fn unfold(out: &mut [u8], table: &mut [usize], most: usize, s: &[u8]) -> Result<usize, TooMany>
    requires { (length s.now ≤ length out.old) × (most < length table.old) × (most ≤ 512) }
    ensures { Unfolds most (unfold' (physical s.now)) result out.new table.new }
{
    let mut n = 0;
    let mut k = 0;
    // From line to line: the steps are not even, so no `for`.
    let mut i = 0;
    while i < s.len() {
        let line = next_line(s, i);
        let end = line.end;
        let next = line.next;
        let fold = folds(&s[i..end]);
        if (k > 0) & fold {
            let from = i + 1;
            n = append(out, n, &s[from..end]);
            i = next;
            continue;
        }
        if k >= most {
            return Err(TooMany);
        }
        table[k] = n;
        k += 1;
        n = append(out, n, &s[i..end]);
        i = next;
    }
    table[k] = n;
    Ok(k)
}

// The unfolded line with that number, from 0 on.
pub fn line_at<'a, 'b>(bytes: &'a [u8], table: &'b [usize], k: usize) -> &'a [u8]
    ensures { result.now ≡ line_at bytes.now table.now k }
{
    if table.len() <= k {
        return &bytes[0..0];
    }
    if table.len() - k < 2 {
        return &bytes[0..0];
    }
    let a = table[k];
    let b = table[k + 1];
    if b < a {
        return &bytes[0..0];
    }
    if bytes.len() < b {
        return &bytes[0..0];
    }
    &bytes[a..b]
}
