// Refusals 6 to 10 of a card: each line is judged by its table, what matters of the lines so far is carried by value.
#![tactic(auto)]

ghost use Rattle.std.specs.Prelude.{◌≡◌, []};
ghost use Rattle.text.specs.Bytes.{ascii};
ghost use Rattle.line.specs.Params.{values_named};
ghost use Rattle.convert.specs.Answers.{only_uri, value_fits, misused, emptied, is_version_line};
ghost use Rattle.line_table.specs.Table.{Sound, line_in};
ghost use Rattle.convert_entry.specs.Rows.{HasRow, OfRow};
ghost use Rattle.table_entry.specs.Key.{Rowed};
ghost use Rattle.from_card_refusals.specs.Line.{Coded, is_word};
ghost use Rattle.from_card_refusals.specs.Judged.{judged, judged_with, refusal_of};

use card_table::{lines, names, params, values};
use convert_entry::value_kind;
use convert_params::Rows;
use convert_tests::same_bytes;
use line_class::{Class, all_of};
use line_table::table;
use served::Refusal;
use table_entry::has_group;

// Of the lines so far: the first of refusals 7, 8 and 9, which names have come, whether the first line is VERSION:4.0.
#[derive(Clone, Copy)]
pub struct Judged {
    pub misused: Option<usize>,
    pub second: Option<usize>,
    pub emptied: Option<usize>,
    pub version: bool,
    pub uid: bool,
    pub kind: bool,
    pub full: bool,
    pub opened: bool,
}

fn is_word(v: &[u8]) -> bool
    ensures { result ≡ is_word v.now }
{
    if v.len() == 0 {
        return false;
    }
    all_of(v, Class::Name)
}

// No VALUE, or one that is a name.
fn value_fits(rows: Rows<'_>, s: &[u8]) -> bool
    requires { HasRow s.now rows }
    ensures { OfRow s.now rows.entry (λ ps. result ≡ value_fits (values_named (ascii "value") ps)) }
{
    let k = rows.counts[params::VALUE];
    if k == 0 {
        return true;
    }
    if k != 1 {
        return false;
    }
    let a = rows.froms[params::VALUE];
    let b = rows.tos[params::VALUE];
    is_word(&s[a..b])
}

// No parameter, or VALUE=uri alone.
fn only_uri(rows: Rows<'_>, s: &[u8], t: &[usize]) -> bool
    requires { Rowed s.now t.now rows }
    ensures { result ≡ only_uri (line_in s.now t.now).params }
{
    let n = t[table::COUNT];
    if n == 0 {
        return true;
    }
    if rows.counts[params::VALUE] != n {
        return false;
    }
    value_kind(rows, s) == values::URI
}

// 7: UID or KIND with a group or a parameter (VALUE=uri on UID is allowed), a GROUP parameter, several values of VALUE or one that is no name.
pub fn is_misused(code: usize, rows: Rows<'_>, s: &[u8], t: &[usize]) -> bool
    requires { Rowed s.now t.now rows × Coded code (line_in s.now t.now) }
    ensures { result ≡ misused (line_in s.now t.now) }
{
    if rows.counts[params::GROUP] != 0 {
        return true;
    }
    if !value_fits(rows, s) {
        return true;
    }
    if code == names::UID {
        if has_group(s, t) {
            return true;
        }
        return !only_uri(rows, s, t);
    }
    if code == names::KIND {
        if has_group(s, t) {
            return true;
        }
        return t[table::COUNT] != 0;
    }
    false
}

// 9: UID empty; KIND empty or not of name characters.
pub fn is_emptied(code: usize, s: &[u8], t: &[usize]) -> bool
    requires { Sound s.now t.now × Coded code (line_in s.now t.now) }
    ensures { result ≡ emptied (line_in s.now t.now) }
{
    let a = t[table::VALUE];
    let b = t[table::VALUE_END];
    if code == names::UID {
        return a == b;
    }
    if code == names::KIND {
        return !is_word(&s[a..b]);
    }
    false
}

// 6: VERSION:4.0, the name in any case, nothing else.
pub fn is_version_line(code: usize, s: &[u8], t: &[usize]) -> bool
    requires { Sound s.now t.now × Coded code (line_in s.now t.now) }
    ensures { result ≡ is_version_line (line_in s.now t.now) }
{
    if code != names::VERSION {
        return false;
    }
    if has_group(s, t) {
        return false;
    }
    if t[table::COUNT] != 0 {
        return false;
    }
    let a = t[table::VALUE];
    let b = t[table::VALUE_END];
    same_bytes(&s[a..b], &lines::VERSION)
}

// Before the first line.
pub fn unjudged() -> Judged
    ensures { result ≡ judged [] }
{
    Judged {
        misused: None,
        second: None,
        emptied: None,
        version: false,
        uid: false,
        kind: false,
        full: false,
        opened: false,
    }
}

// One line more, the k-th.
#[tactic(auto, unfolding(crate::specs::Judged::judged_with))]
pub fn judge(
    j: Judged,
    k: usize,
    code: usize,
    misused: bool,
    emptied: bool,
    version: bool,
) -> Judged
    ensures { result ≡ judged_with j k code misused emptied version }
{
    let twice = ((code == names::VERSION) & j.version)
        | (((code == names::UID) & j.uid) | ((code == names::KIND) & j.kind));
    Judged {
        misused: j.misused.or(misused.then_some(k)),
        second: j.second.or(twice.then_some(k)),
        emptied: j.emptied.or(emptied.then_some(k)),
        version: j.version | (code == names::VERSION),
        uid: j.uid | (code == names::UID),
        kind: j.kind | (code == names::KIND),
        full: j.full | (code == names::FN),
        opened: j.opened | ((k == 1) & version),
    }
}

// Each refusal is sought over all lines before the next.
#[tactic(auto, unfolding(crate::specs::Judged::refusal_of))]
pub fn refusal_of(j: Judged) -> Option<Refusal>
    ensures { result ≡ refusal_of j }
{
    if !j.opened {
        return Some(Refusal {
            number: 6,
            place: 0,
        });
    }
    if let Some(place) = j.misused {
        return Some(Refusal { number: 7, place });
    }
    if let Some(place) = j.second {
        return Some(Refusal { number: 8, place });
    }
    if let Some(place) = j.emptied {
        return Some(Refusal { number: 9, place });
    }
    if !j.full {
        return Some(Refusal {
            number: 10,
            place: 0,
        });
    }
    None
}
