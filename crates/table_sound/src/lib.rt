// Whether a table of places is one that code may read: every place is within the buffer. Asked where the table was filled from a text of which nothing
// is known yet.
#![tactic(auto)]

ghost use Rattle.std.specs.Prelude.{◌+◌, ◌≤◌, ◌<◌, length, get_or};
ghost use Rattle.line_table.specs.Table.{table_length};
ghost use Rattle.table_sound.specs.Sound.{TellsSpan, TellsSound};

use line_limits::VALUES;
use line_table::table;

// Whether the part at the slots i and i + 1 is within n bytes.
fn has_span(t: &[usize], i: usize, n: usize) -> bool
    requires { i + 1 < length t.now }
    ensures { TellsSpan n (get_or t.now i 0) (get_or t.now (i + 1) 0) result }
{
    let a = t[i];
    let e = t[i + table::ROW_NAME_END];
    if a > e {
        return false;
    }
    if e > n {
        return false;
    }
    true
}

pub fn is_sound(b: &[u8], t: &[usize]) -> bool
    requires { table_length ≤ length t.now }
    ensures { TellsSound b.now t.now result }
{
    let m = b.len();
    let n = t[table::COUNT];
    if n > VALUES {
        return false;
    }
    if !has_span(t, table::GROUP, m) {
        return false;
    }
    if !has_span(t, table::NAME, m) {
        return false;
    }
    if !has_span(t, table::VALUE, m) {
        return false;
    }
    for k in 0..n {
        let i = table::ROW * k + table::ROWS;
        let j = i + table::ROW_VALUE;
        if !has_span(t, i, m) {
            return false;
        }
        if !has_span(t, j, m) {
            return false;
        }
    }
    true
}
