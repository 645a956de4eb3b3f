// The values of TYPE: each in any letter case, split at commas, marked in a row of nine.
#![tactic(auto)]

ghost use Rattle.std.specs.Prelude.{◌≡◌, ◌≤◌, ◌<◌, length};
ghost use Rattle.text.specs.Bytes.{code, parts};
ghost use Rattle.card_table.specs.Numbers.{type_count};
ghost use Rattle.convert_types.specs.Marks.{type_at, placed, marks, told, split, PartEnds};

use card_table::types;
use line_name::is_named;

// The number of a value of TYPE (`types`); how many there are where it has none.
fn place_of(v: &[u8]) -> usize
    ensures { placed result ≡ type_at type_count v.now }
{
    if is_named(v, &types::HOME_NAME) {
        return types::HOME;
    }
    if is_named(v, &types::WORK_NAME) {
        return types::WORK;
    }
    if is_named(v, &types::FAX_NAME) {
        return types::FAX;
    }
    if is_named(v, &types::CELL_NAME) {
        return types::CELL;
    }
    if is_named(v, &types::PAGER_NAME) {
        return types::PAGER;
    }
    if is_named(v, &types::TEXT_NAME) {
        return types::TEXT;
    }
    if is_named(v, &types::TEXTPHONE_NAME) {
        return types::TEXTPHONE;
    }
    if is_named(v, &types::VIDEO_NAME) {
        return types::VIDEO;
    }
    if is_named(v, &types::VOICE_NAME) {
        return types::VOICE;
    }
    types::COUNT
}

// The same among the first n.
fn type_code(v: &[u8], n: usize) -> usize
    ensures { placed result ≡ type_at n v.now }
{
    let c = place_of(v);
    if c < n {
        return c;
    }
    types::COUNT
}

// Where the part of a value that begins at `at` ends.
fn part_end(s: &[u8], at: usize) -> usize
    ensures { PartEnds s.now at result }
{
    let mut i = at;
    while i < s.len() {
        if s[i] == b',' {
            return i;
        }
        i += 1;
    }
    i
}

// Marks one value of TYPE, split at commas.
pub fn mark_value(row: &mut [u8], v: &[u8], n: usize) -> bool
    requires { type_count ≤ length row.old }
    ensures { told result row.new ≡ marks n (parts (code ",") v.now) row.old }
{
    let mut i = 0;
    loop {
        let e = part_end(v, i);
        let c = type_code(&v[i..e], n);
        if c >= types::COUNT {
            return false;
        }
        row[c] = 1;
        if e >= v.len() {
            return true;
        }
        i = e + 1;
    }
}
