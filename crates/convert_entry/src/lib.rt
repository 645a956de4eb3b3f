// The tests on a line of one of the maps (`entry_of`): its parameters, VALUE, PREF, and whether its value reads.
#![tactic(auto)]

ghost use Rattle.std.specs.Prelude.{◌≡◌, ◌≤◌, ◌<◌, length};
ghost use Rattle.text.specs.Choice.{is_some};
ghost use Rattle.text.specs.Bytes.{ascii, begins};
ghost use Rattle.line.specs.Params.{values_named, besides_value, value_type};
ghost use Rattle.convert.specs.Classify.{pref_from};
ghost use Rattle.card_table.specs.Numbers.{param_kinds};
ghost use Rattle.convert_entry.specs.Rows.{type_number, takes, kinds_out, zeros, OfRow, HasRow, ReadsAs};

use card_table::{forms, params, values};
use convert_params::Rows;
use convert_tests::is_pref;
use line_name::is_named;
use line_parts::has_other;
use line_text::{is_text, part_end};

// Only parameters that a map's lines take; TYPE and PREF where the map is typed.
pub fn only_of(typed: bool, counts: &[usize]) -> bool
    requires { param_kinds ≤ length counts.now }
    ensures { result ≡ zeros (kinds_out typed) counts.now }
{
    if typed {
        return (counts[params::JSPTR] == 0)
            & ((counts[params::DERIVED] == 0)
                & ((counts[params::GROUP] == 0) & (counts[params::OTHER] == 0)));
    }
    (counts[params::JSPTR] == 0)
        & ((counts[params::DERIVED] == 0)
            & ((counts[params::GROUP] == 0)
                & ((counts[params::OTHER] == 0)
                    & ((counts[params::PREF] == 0) & (counts[params::TYPE] == 0)))))
}

// What VALUE says, by number (`values`).
pub fn value_kind(rows: Rows<'_>, s: &[u8]) -> usize
    requires { HasRow s.now rows }
    ensures { OfRow s.now rows.entry (λ ps. result ≡ type_number (value_type ps)) }
{
    if rows.counts[params::VALUE] == 0 {
        return values::UNKNOWN;
    }
    let a = rows.froms[params::VALUE];
    let b = rows.tos[params::VALUE];
    if is_named(&s[a..b], &values::UNKNOWN_NAME) {
        return values::UNKNOWN;
    }
    if is_named(&s[a..b], &values::URI_NAME) {
        return values::URI;
    }
    values::OTHER
}

pub fn takes_kind(form: usize, kind: usize) -> bool
    ensures { result ≡ takes form kind }
{
    (kind == values::UNKNOWN)
        | ((kind == values::URI) & ((form == forms::RAW) | (form == forms::PHONE)))
}

// PREF: absent, or one valid value.
pub fn pref_fits(rows: Rows<'_>, s: &[u8]) -> bool
    requires { HasRow s.now rows }
    ensures { OfRow s.now rows.entry (λ ps. result ≡ is_some (pref_from (values_named (ascii "pref") (besides_value ps)))) }
{
    let k = rows.counts[params::PREF];
    if k == 0 {
        return true;
    }
    if k != 1 {
        return false;
    }
    let a = rows.froms[params::PREF];
    let b = rows.tos[params::PREF];
    is_pref(&s[a..b])
}

// tel:
fn begins_tel(v: &[u8]) -> bool
    ensures { result ≡ begins (ascii "tel:") v.now }
{
    if v.len() < 4 {
        return false;
    }
    (v[0] == b't') & ((v[1] == b'e') & ((v[2] == b'l') & (v[3] == b':')))
}

// Whether the value can be read in that form. ORG: an escape is in one part as in the whole, and a part is filled.
pub fn reads_as(form: usize, kind: usize, v: &[u8]) -> bool
    ensures { ReadsAs form kind v.now result }
{
    if form == forms::RAW {
        return true;
    }
    if (form == forms::PHONE) & (kind == values::URI) {
        return begins_tel(v);
    }
    if form == forms::SINGLE {
        if part_end(v, 0, b',') < v.len() {
            return false;
        }
        return is_text(v);
    }
    if form == forms::ORGANIZATION {
        if !has_other(v, b';', b';') {
            return false;
        }
        return is_text(v);
    }
    is_text(v)
}
