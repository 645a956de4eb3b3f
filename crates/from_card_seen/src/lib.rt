// PROP-IDs and JSPROP pointers of the converted lines so far, in one table with prints, and the number of a line's class settled by it.
#![tactic(auto)]

ghost use Rattle.std.specs.Prelude.{◌≡◌, ◌+◌, ◌≤◌, ◌<◌, length, set};
ghost use Rattle.text.specs.Bytes.{any};
ghost use Rattle.json_prints.specs.Prints.{printed};
ghost use Rattle.convert.specs.Classify.{is_id};
ghost use Rattle.line_table.specs.Table.{part, Span};
ghost use Rattle.class_line.specs.Class.{ClassIn};
ghost use Rattle.card_table.specs.Numbers.{group_count};
ghost use Rattle.from_card_seen.specs.Ids.{ids_at, Listed, IdTable, Unfilled, with_id, Cut};
ghost use Rattle.from_card_seen.specs.Settled.{Settles, Notes};

use card_table::{classes, maps};
use class_line::Class;
use convert_tests::is_id;
use json_prints::{any_print, print_of};

// The classes, as a card's codes hold them.
const KEPT: u8 = classes::KEPT as u8;

const DROPPED: u8 = classes::DROPPED as u8;

const VERSION: u8 = classes::VERSION as u8;

const UID: u8 = classes::UID as u8;

const KIND: u8 = classes::KIND as u8;

const FULL: u8 = classes::FULL as u8;

const PARTS: u8 = classes::PARTS as u8;

const MEMBER: u8 = classes::MEMBER as u8;

// A key takes so many places: the number of its map, and where it begins and ends.
pub const ID: usize = 3;

// The number of the line's class; whether FN and N have converted now; how many keys the table has now.
#[derive(Drop)]
pub struct Settled {
    pub code: u8,
    pub full: bool,
    pub parts: bool,
    pub count: usize,
}

// Whether one of the n keys is that key of the map i, by their bytes, the last first.
fn is_listed(bytes: &[u8], ids: &[usize], n: usize, i: usize, key: &[u8]) -> bool
    requires { Listed bytes.now ids.now n }
    ensures { result ≡ any (is_id i key.now) (ids_at bytes.now ids.now n) }
{
    for k in (0..n).rev() {
        let at = ID * k;
        let j = ids[at];
        let a = ids[at + 1];
        let b = ids[at + 2];
        if is_id(bytes, j, a, b, i, key) {
            return true;
        }
    }
    false
}

// The same, by the prints first: bytes are compared only where a print is equal.
fn is_used(
    bytes: &[u8],
    ids: &[usize],
    prints: &[u16],
    n: usize,
    i: usize,
    p: u16,
    key: &[u8],
) -> bool
    requires { IdTable bytes.now ids.now prints.now n × (p ≡ printed i key.now) }
    ensures { result ≡ any (is_id i key.now) (ids_at bytes.now ids.now n) }
{
    if !any_print(prints, p, 0, n) {
        return false;
    }
    is_listed(bytes, ids, n, i, key)
}

// One key more, of the map i, from a to b, with the print p.
fn put_id(
    ids: &mut [usize],
    prints: &mut [u16],
    n: usize,
    i: usize,
    a: usize,
    b: usize,
    p: u16,
) -> usize
    requires { Unfilled ids.old prints.old n }
    ensures { (result ≡ n + 1) × (ids.new ≡ with_id ids.old n i a b) × (prints.new ≡ set prints.old n p) }
{
    let at = ID * n;
    ids[at] = i;
    ids[at + 1] = a;
    ids[at + 2] = b;
    prints[n] = p;
    n + 1
}

// The key from a to b of the line, which begins at `at`, is kept where it is not used in the map i: answers how many there are then.
fn note_key(
    ids: &mut [usize],
    prints: &mut [u16],
    n: usize,
    bytes: &[u8],
    at: usize,
    s: &[u8],
    i: usize,
    a: usize,
    b: usize,
) -> usize
    requires { IdTable bytes.now ids.old prints.old n × Unfilled ids.old prints.old n × (i < group_count) × Span s.now a b × Cut bytes.now s.now at }
    ensures { Notes bytes.now s.now ids.old n i a b ids.new prints.new result }
{
    let p = print_of(i, &s[a..b]);
    if is_used(bytes, ids, prints, n, i, p, &s[a..b]) {
        return n;
    }
    put_id(ids, prints, n, i, at + a, at + b, p)
}

// What the line becomes, where the table of n keys, `full` and `parts` say what was seen before it.
pub fn settle(
    ids: &mut [usize],
    prints: &mut [u16],
    n: usize,
    full: bool,
    parts: bool,
    bytes: &[u8],
    at: usize,
    s: &[u8],
    class: Class,
) -> Settled
    requires { IdTable bytes.now ids.old prints.old n × Unfilled ids.old prints.old n × ClassIn s.now class × Cut bytes.now s.now at }
    ensures { Settles bytes.now s.now ids.old n full parts class ids.new prints.new result }
{
    match class {
        Class::Kept => Settled {
            code: KEPT,
            full: full,
            parts: parts,
            count: n,
        },
        Class::Dropped => Settled {
            code: DROPPED,
            full: full,
            parts: parts,
            count: n,
        },
        Class::Version => Settled {
            code: VERSION,
            full: full,
            parts: parts,
            count: n,
        },
        Class::Uid => Settled {
            code: UID,
            full: full,
            parts: parts,
            count: n,
        },
        Class::Kind => Settled {
            code: KIND,
            full: full,
            parts: parts,
            count: n,
        },
        Class::Full => Settled {
            code: FULL,
            full: true,
            parts: parts,
            count: n,
        },
        Class::Parts => Settled {
            code: PARTS,
            full: full,
            parts: true,
            count: n,
        },
        Class::Entry { map } => Settled {
            code: map as u8,
            full: full,
            parts: parts,
            count: n,
        },
        Class::Keyed { map, start, end } => {
            let m = note_key(ids, prints, n, bytes, at, s, map, start, end);
            if m == n {
                return Settled {
                    code: KEPT,
                    full: full,
                    parts: parts,
                    count: n,
                };
            }
            Settled {
                code: map as u8,
                full: full,
                parts: parts,
                count: m,
            }
        }
        Class::Member { start, end } => {
            let m = note_key(ids, prints, n, bytes, at, s, maps::POINTERS, start, end);
            if m == n {
                return Settled {
                    code: KEPT,
                    full: full,
                    parts: parts,
                    count: n,
                };
            }
            Settled {
                code: MEMBER,
                full: full,
                parts: parts,
                count: m,
            }
        }
    }
}
