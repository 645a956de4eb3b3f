// The parameters that the converter looks at, by number.
#![tactic(auto)]

ghost use Rattle.std.specs.Prelude.{◌≡◌, ◌<◌};
ghost use Rattle.text.specs.Bytes.{lowered};
ghost use Rattle.card_table.specs.Numbers.{param_kinds};
ghost use Rattle.convert_params.specs.Row.{kind_of};

use card_table::params;
use line_name::is_named;

// What a line's parameters are, by number: how many values those of each have, and where the first of these begins and ends.
#[derive(Clone, Copy)]
pub struct Rows<'a> {
    pub counts: &'a [usize],
    pub froms: &'a [usize],
    pub tos: &'a [usize],
}

// Which of the parameters that the converter looks at it is.
pub fn kind_of(name: &[u8]) -> usize
    ensures { (result ≡ kind_of (lowered name.now)) × (result < param_kinds) }
{
    if is_named(name, &params::PROP_ID_NAME) {
        return params::PROP_ID;
    }
    if is_named(name, &params::PREF_NAME) {
        return params::PREF;
    }
    if is_named(name, &params::TYPE_NAME) {
        return params::TYPE;
    }
    if is_named(name, &params::VALUE_NAME) {
        return params::VALUE;
    }
    if is_named(name, &params::JSPTR_NAME) {
        return params::JSPTR;
    }
    if is_named(name, &params::DERIVED_NAME) {
        return params::DERIVED;
    }
    if is_named(name, &params::GROUP_NAME) {
        return params::GROUP;
    }
    params::OTHER
}
