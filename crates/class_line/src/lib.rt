// What a parsed line becomes, for a card's line and for an entry of vCardProps alike: as far as the line itself says. What is left open is one
// question to what was seen before (a PROP-ID of the map, a member's name), which is the caller's.
#![tactic(auto)]

ghost use Rattle.std.specs.Prelude.{◌≡◌, ◌+◌};
ghost use Rattle.table_entry.specs.Key.{Rowed};
ghost use Rattle.class_member.specs.Member.{Room};
ghost use Rattle.class_line.specs.Class.{Numbered, Classes, AnyFlags, FullFlags, PartsFlags};

use card_table::{classes, names};
use class_member::member_class;
use class_name_lines::{full_class, parts_class};
use class_properties::{form_of, name_code, types_of};
use convert_params::Rows;
use line_table::table;
use table_entry::{Key, entry_key};

#[derive(Clone, Copy)]
pub enum Class {
    // to vCardProps
    Kept,
    // FN with only DERIVED=TRUE
    Dropped,
    Version,
    Uid,
    Kind,
    Full,
    Parts,
    // of that map, with no PROP-ID
    Entry {
        map: usize,
    },
    // of that map, unless its PROP-ID is used there: kept
    Keyed {
        map: usize,
        start: usize,
        end: usize,
    },
    // a top-level member, unless the name that its pointer names is used: kept
    Member {
        start: usize,
        end: usize,
    },
}

// A line of the map i.
fn map_class(rows: Rows<'_>, s: &[u8], t: &[usize], i: usize) -> Class
    requires { Rowed s.now t.now rows × Numbered s.now t.now (16 + i) }
    ensures { AnyFlags s.now t.now result }
{
    let types = types_of(i);
    let form = form_of(i);
    match entry_key(rows, s, t, types, form) {
        Key::Bad => {
            return Class::Kept;
        }
        Key::Free => {
            return Class::Entry { map: i };
        }
        Key::At { start: a, end: b } => {
            return Class::Keyed {
                map: i,
                start: a,
                end: b,
            };
        }
    }
}

// FN.
fn fn_class(rows: Rows<'_>, s: &[u8], t: &[usize], full: bool) -> Class
    requires { Rowed s.now t.now rows × Numbered s.now t.now 4 }
    ensures { FullFlags s.now t.now full result }
{
    let k = full_class(rows, s, t, full);
    if k == classes::FULL {
        return Class::Full;
    }
    if k == classes::DROPPED {
        return Class::Dropped;
    }
    Class::Kept
}

// N.
fn n_class(rows: Rows<'_>, s: &[u8], t: &[usize], parts: bool) -> Class
    requires { Rowed s.now t.now rows × Numbered s.now t.now 5 }
    ensures { PartsFlags s.now t.now parts result }
{
    let k = parts_class(rows, s, t, parts);
    if k == classes::PARTS {
        return Class::Parts;
    }
    Class::Kept
}

// JSPROP.
fn jsprop_class(rows: Rows<'_>, s: &[u8], t: &[usize], scratch: &mut [u8]) -> Class
    requires { Rowed s.now t.now rows × Room s.now scratch.old × Numbered s.now t.now 6 }
    ensures { AnyFlags s.now t.now result }
{
    match member_class(rows, s, t, scratch) {
        None => Class::Kept,
        Some(p) => Class::Member {
            start: p.start,
            end: p.end,
        },
    }
}

// The line whose name has the number k. The rows are those of its parameters (`table_params::scan_rows`); the flags say whether FN and N have converted.
// The scratch is for the value of JSPROP.
pub fn class_numbered(
    k: usize,
    rows: Rows<'_>,
    s: &[u8],
    t: &[usize],
    scratch: &mut [u8],
    full: bool,
    parts: bool,
) -> Class
    requires { Rowed s.now t.now rows × Room s.now scratch.old × Numbered s.now t.now k }
    ensures { Classes s.now t.now full parts result }
{
    if k >= names::OF_MAPS {
        return map_class(rows, s, t, k - names::OF_MAPS);
    }
    if k == names::OTHER {
        return Class::Kept;
    }
    if k == names::FN {
        return fn_class(rows, s, t, full);
    }
    if k == names::N {
        return n_class(rows, s, t, parts);
    }
    if k == names::JSPROP {
        return jsprop_class(rows, s, t, scratch);
    }
    if k == names::VERSION {
        return Class::Version;
    }
    if k == names::UID {
        return Class::Uid;
    }
    Class::Kind
}

// The same where the number is not known.
pub fn class_line(
    rows: Rows<'_>,
    s: &[u8],
    t: &[usize],
    scratch: &mut [u8],
    full: bool,
    parts: bool,
) -> Class
    requires { Rowed s.now t.now rows × Room s.now scratch.old }
    ensures { Classes s.now t.now full parts result }
{
    let a = t[table::NAME];
    let b = t[table::NAME_END];
    let k = name_code(&s[a..b]);
    class_numbered(k, rows, s, t, scratch, full, parts)
}
