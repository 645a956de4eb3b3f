// JSPROP of a parsed line, for a card's line and for an entry of vCardProps alike.
#![tactic(auto)]

ghost use Rattle.std.specs.Prelude.{◌≡◌, ◌≤◌, length, take, drop};
ghost use Rattle.text.specs.Choice.{is_some};
ghost use Rattle.text.specs.Bytes.{among};
ghost use Rattle.convert.specs.Table.{reserved};
ghost use Rattle.convert.specs.Pointer.{pointed};
ghost use Rattle.convert.specs.Classify.{member_value};
ghost use Rattle.convert_entry.specs.Rows.{zeros};
ghost use Rattle.table_entry.specs.Key.{Rowed};
ghost use Rattle.card_table.specs.Numbers.{param_kinds};
ghost use Rattle.class_member.specs.Member.{besides_pointer, points_on, Room, MemberIs};

use card_table::{emails, links, members, nicknames, notes, organizations, params, phones, titles};
use class_name_lines::is_bare;
use convert_params::Rows;
use convert_tests::same_bytes;
use json_read::read;
use line_table::table;
use line_text::read_text;

// Where the pointer of a JSPROP line stands in it.
#[derive(Clone, Copy)]
pub struct Pointer {
    pub start: usize,
    pub end: usize,
}

// After a tilde 0 or 1, and else no slash.
fn points_on(tilde: bool, c: u8) -> bool
    ensures { result ≡ points_on tilde c }
{
    if tilde {
        return (c == b'0') | (c == b'1');
    }
    c != b'/'
}

// One part of a pointer (RFC 6901), not empty.
fn is_pointer(p: &[u8]) -> bool
    ensures { result ≡ is_some (pointed p.now) }
{
    if p.len() == 0 {
        return false;
    }
    let mut tilde = false;
    for &c in p {
        if !points_on(tilde, c) {
            return false;
        }
        tilde = !tilde & (c == b'~');
    }
    !tilde
}

// The first five of the reserved members.
fn is_head(p: &[u8]) -> bool
    ensures { result ≡ among p.now (take 5 reserved) }
{
    if same_bytes(p, &members::TYPE_NAME) {
        return true;
    }
    if same_bytes(p, &members::VERSION_NAME) {
        return true;
    }
    if same_bytes(p, &members::UID_NAME) {
        return true;
    }
    if same_bytes(p, &members::KIND_NAME) {
        return true;
    }
    same_bytes(p, &members::NAME_NAME)
}

// The others: the maps, and vCardProps.
fn is_section(p: &[u8]) -> bool
    ensures { result ≡ among p.now (drop 5 reserved) }
{
    if same_bytes(p, &nicknames::NAME) {
        return true;
    }
    if same_bytes(p, &emails::NAME) {
        return true;
    }
    if same_bytes(p, &phones::NAME) {
        return true;
    }
    if same_bytes(p, &links::NAME) {
        return true;
    }
    if same_bytes(p, &notes::NAME) {
        return true;
    }
    if same_bytes(p, &titles::NAME) {
        return true;
    }
    if same_bytes(p, &organizations::NAME) {
        return true;
    }
    same_bytes(p, &members::KEPT_NAME)
}

// No parameter but VALUE and JSPTR.
fn none_but_pointer(counts: &[usize]) -> bool
    requires { param_kinds ≤ length counts.now }
    ensures { result ≡ zeros besides_pointer counts.now }
{
    (counts[params::PROP_ID] == 0)
        & ((counts[params::PREF] == 0)
            & ((counts[params::TYPE] == 0)
                & ((counts[params::DERIVED] == 0)
                    & ((counts[params::GROUP] == 0) & (counts[params::OTHER] == 0)))))
}

// The value: JSON of the depth that a member of a card may have, in TEXT, which is decoded into the scratch. A bad escape leaves nothing, which is no JSON.
fn is_json(scratch: &mut [u8], v: &[u8]) -> bool
    requires { Room v.now scratch.old }
    ensures { result ≡ is_some (member_value v.now) }
{
    let Ok(n) = read_text(scratch, v) else {
        return false;
    };
    match read(&scratch[0..n], members::DEPTH) {
        Ok(_) => {
            return true;
        }
        Err(_) => {
            return false;
        }
    }
}

// A member, unless the name that the pointer points at is used; none where the line is kept.
pub fn member_class(rows: Rows<'_>, s: &[u8], t: &[usize], scratch: &mut [u8]) -> Option<Pointer>
    requires { Rowed s.now t.now rows × Room s.now scratch.old }
    ensures { MemberIs s.now t.now result }
{
    if rows.counts[params::JSPTR] != 1 {
        return None;
    }
    if !none_but_pointer(rows.counts) {
        return None;
    }
    if !is_bare(rows, s, t) {
        return None;
    }
    let a = rows.froms[params::JSPTR];
    let b = rows.tos[params::JSPTR];
    if !is_pointer(&s[a..b]) {
        return None;
    }
    if is_head(&s[a..b]) {
        return None;
    }
    if is_section(&s[a..b]) {
        return None;
    }
    let c = t[table::VALUE];
    let d = t[table::VALUE_END];
    if !is_json(scratch, &s[c..d]) {
        return None;
    }
    Some(Pointer { start: a, end: b })
}
