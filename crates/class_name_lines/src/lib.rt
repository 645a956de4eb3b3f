// FN and N of a parsed line, for a card's line and for an entry of vCardProps alike.
#![tactic(auto)]

ghost use Rattle.std.specs.Prelude.{◌≡◌, ◌∷◌, [], ◌≤◌, length};
ghost use Rattle.text.specs.Choice.{is_some};
ghost use Rattle.line.specs.Params.{besides_value};
ghost use Rattle.convert.specs.Value.{read_name};
ghost use Rattle.convert.specs.Classify.{bare, is_derived};
ghost use Rattle.line_table.specs.Table.{line_in};
ghost use Rattle.convert_entry.specs.Rows.{zeros};
ghost use Rattle.table_entry.specs.Key.{Rowed};
ghost use Rattle.card_table.specs.Numbers.{param_kinds};
ghost use Rattle.class_name_lines.specs.Name.{all_kinds, besides_derived, FullClass, PartsClass};

use card_table::{classes, params, parts, values};
use convert_entry::value_kind;
use convert_params::Rows;
use line_name::is_named;
use line_parts::{few_parts, has_other};
use line_table::table;
use line_text::is_text;
use table_entry::has_group;

// A line that may convert as FN, N or JSPROP: no group, and VALUE absent.
pub fn is_bare(rows: Rows<'_>, s: &[u8], t: &[usize]) -> bool
    requires { Rowed s.now t.now rows }
    ensures { bare (line_in s.now t.now) ≡ result }
{
    if has_group(s, t) {
        return false;
    }
    value_kind(rows, s) == values::UNKNOWN
}

// No parameter but VALUE.
fn no_params(counts: &[usize]) -> bool
    requires { param_kinds ≤ length counts.now }
    ensures { result ≡ zeros all_kinds counts.now }
{
    (counts[params::PROP_ID] == 0)
        & ((counts[params::PREF] == 0)
            & ((counts[params::TYPE] == 0)
                & ((counts[params::JSPTR] == 0)
                    & ((counts[params::DERIVED] == 0)
                        & ((counts[params::GROUP] == 0) & (counts[params::OTHER] == 0))))))
}

fn none_but_derived(counts: &[usize]) -> bool
    requires { param_kinds ≤ length counts.now }
    ensures { result ≡ zeros besides_derived counts.now }
{
    (counts[params::PROP_ID] == 0)
        & ((counts[params::PREF] == 0)
            & ((counts[params::TYPE] == 0)
                & ((counts[params::JSPTR] == 0)
                    & ((counts[params::GROUP] == 0) & (counts[params::OTHER] == 0)))))
}

// The sole parameter DERIVED=TRUE, in any case.
fn is_derived(rows: Rows<'_>, s: &[u8], t: &[usize]) -> bool
    requires { Rowed s.now t.now rows }
    ensures { is_derived (besides_value (line_in s.now t.now).params) ≡ result }
{
    if rows.counts[params::DERIVED] != 1 {
        return false;
    }
    if !none_but_derived(rows.counts) {
        return false;
    }
    let a = rows.froms[params::DERIVED];
    let b = rows.tos[params::DERIVED];
    is_named(&s[a..b], &params::TRUE)
}

// FN by the number of its class: kept, dropped or the full name. `full`: an earlier line is it.
pub fn full_class(rows: Rows<'_>, s: &[u8], t: &[usize], full: bool) -> usize
    requires { Rowed s.now t.now rows }
    ensures { FullClass s.now t.now full result }
{
    if !is_bare(rows, s, t) {
        return classes::KEPT;
    }
    if is_derived(rows, s, t) {
        return classes::DROPPED;
    }
    if full {
        return classes::KEPT;
    }
    if !no_params(rows.counts) {
        return classes::KEPT;
    }
    let a = t[table::VALUE];
    let b = t[table::VALUE_END];
    if !is_text(&s[a..b]) {
        return classes::KEPT;
    }
    classes::FULL
}

// A value of N: seven parts at most, every escape good, and a value that is filled.
fn is_name(v: &[u8]) -> bool
    ensures { result ≡ is_some (read_name v.now) }
{
    if !few_parts(v, b';', parts::COUNT) {
        return false;
    }
    if !has_other(v, b';', b',') {
        return false;
    }
    is_text(v)
}

// N by the number of its class: kept, or the components. `parts`: an earlier line has them.
pub fn parts_class(rows: Rows<'_>, s: &[u8], t: &[usize], parts: bool) -> usize
    requires { Rowed s.now t.now rows }
    ensures { PartsClass s.now t.now parts result }
{
    if parts {
        return classes::KEPT;
    }
    if !is_bare(rows, s, t) {
        return classes::KEPT;
    }
    if !no_params(rows.counts) {
        return classes::KEPT;
    }
    let a = t[table::VALUE];
    let b = t[table::VALUE_END];
    if !is_name(&s[a..b]) {
        return classes::KEPT;
    }
    classes::PARTS
}
