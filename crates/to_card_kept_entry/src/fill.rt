// An entry of vCardProps, decoded into a lent buffer and laid out as the table of the line that it is.
ghost use Rattle.std.specs.Prelude.{◌≤◌, length};
ghost use Rattle.to_card_kept_entry.specs.strings.Strings.{Bounds};
ghost use Rattle.to_card_kept_entry.specs.entry.Entry.{FillsRest, FillsKept};
ghost use Rattle.line_table.specs.Table.{table_length};
ghost use Rattle.to_card_kept_entry.specs.fill.Held.{is_entry, HeldIn};

use crate::entry::{four_at, put_head, put_name, put_type};
use crate::strings::put_string;
use crate::table::{Filled, put_object};

// Type and value, then the head.
fn put_rest(
    b: &mut [u8],
    t: &mut [usize],
    f: Filled,
    e: usize,
    s: &[u8],
    kind: usize,
    value: usize,
) -> bool
    requires end_in_bounds { f.end ≤ length b.old }
    requires table_length_in_bounds { table_length ≤ length t.old }
    requires rows_bound { f.rows ≤ 64 }
    requires e_le_end { e ≤ f.end }
    ensures bounds { Bounds b.old b.new t.old t.new }
    ensures fills_rest { FillsRest b.old t.old f e s.now kind value result b.new t.new }
{
    let n = f.end;
    let m = f.rows;
    let count = f.count;
    let from = f.from;
    let to = f.to;
    let Some(p) = put_type(b, n, t, m, count, s, kind) else {
        return false;
    };
    let Some(x) = put_string(b, p.end, s, value) else {
        return false;
    };
    put_head(t, from, to, e, p.end, x, p.count);
    true
}

// The whole entry as a table: the place after the entry; none where no kept line gives it in form.
pub fn fill_kept(b: &mut [u8], t: &mut [usize], s: &[u8], at: usize) -> Option<usize>
    requires table_length_in_bounds { table_length ≤ length t.old }
    requires at_in_bounds { at ≤ length s.now }
    ensures bounds { Bounds b.old b.new t.old t.new }
    ensures held_in { HeldIn s.now at result }
    ensures fills_kept { FillsKept b.old s.now at (is_entry result) b.new t.new }
{
    let four = four_at(s, at)?;
    let e = put_name(b, 0, s, four.name)?;
    let f = put_object(b, e, t, s, four.params)?;
    if !put_rest(b, t, f, e, s, four.kind, four.value) {
        return None;
    }
    Some(four.end)
}
