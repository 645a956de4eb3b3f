// Which property a line's name is, as a number that the converter goes by, and the rows of the table of maps.
#![tactic(auto)]

ghost use Rattle.std.specs.Prelude.{◌≡◌, ◌<◌, length, get_or};
ghost use Rattle.text.specs.Bytes.{lowered};
ghost use Rattle.class_properties.specs.Names.{name_number, types_of, form_of};

use card_table::{
    emails, forms, links, names, nicknames, notes, organizations, phones, titles, types,
};
use line_name::is_named;

fn name_of_three(name: &[u8]) -> usize
    requires { length name.now ≡ 3 }
    ensures { result ≡ name_number (lowered name.now) }
{
    if is_named(name, &phones::LINE) {
        return phones::NAMED;
    }
    if is_named(name, &links::LINE) {
        return links::NAMED;
    }
    if is_named(name, &organizations::LINE) {
        return organizations::NAMED;
    }
    if is_named(name, &names::UID_NAME) {
        return names::UID;
    }
    names::OTHER
}

fn name_of_four(name: &[u8]) -> usize
    requires { length name.now ≡ 4 }
    ensures { result ≡ name_number (lowered name.now) }
{
    if is_named(name, &notes::LINE) {
        return notes::NAMED;
    }
    if is_named(name, &titles::ROLE_LINE) {
        return titles::NAMED;
    }
    if is_named(name, &names::KIND_NAME) {
        return names::KIND;
    }
    names::OTHER
}

fn name_of_five(name: &[u8]) -> usize
    requires { length name.now ≡ 5 }
    ensures { result ≡ name_number (lowered name.now) }
{
    if is_named(name, &emails::LINE) {
        return emails::NAMED;
    }
    if is_named(name, &titles::TITLE_LINE) {
        return titles::NAMED;
    }
    names::OTHER
}

// The property, by the length of its name first.
pub fn name_code(name: &[u8]) -> usize
    ensures { result ≡ name_number (lowered name.now) }
{
    let n = name.len();
    if n == 3 {
        return name_of_three(name);
    }
    if n == 5 {
        return name_of_five(name);
    }
    if n == 4 {
        return name_of_four(name);
    }
    if is_named(name, &names::N_NAME) {
        return names::N;
    }
    if is_named(name, &names::FN_NAME) {
        return names::FN;
    }
    if is_named(name, &names::VERSION_NAME) {
        return names::VERSION;
    }
    if is_named(name, &nicknames::LINE) {
        return nicknames::NAMED;
    }
    if is_named(name, &names::JSPROP_NAME) {
        return names::JSPROP;
    }
    names::OTHER
}

// How many values of TYPE the map i takes.
pub fn types_of(i: usize) -> usize
    ensures { result ≡ types_of i }
{
    if i == phones::MAP {
        return types::COUNT;
    }
    if i > links::MAP {
        return 0;
    }
    types::CONTEXTS
}

// The map's form, by number.
pub fn form_of(i: usize) -> usize
    ensures { (result ≡ form_of i) × (result < 5) }
{
    if i == nicknames::MAP {
        return nicknames::FORM;
    }
    if i == phones::MAP {
        return phones::FORM;
    }
    if i == links::MAP {
        return links::FORM;
    }
    if i == organizations::MAP {
        return organizations::FORM;
    }
    forms::TEXT
}
