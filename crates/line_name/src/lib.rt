// Names in any letter case: ASCII letters alone have one.
#![tactic(auto)]

ghost use Rattle.std.specs.Prelude.{◌≡◌, ◌==◌};
ghost use Rattle.std.specs.Char.{to_ascii_lowercase};
ghost use Rattle.std.specs.List.{list_all, zip};
ghost use Rattle.text.specs.Bytes.{lower, upper, lowered, same};

pub fn lower_of(c: u8) -> u8
    ensures { result ≡ lower c }
{
    c.to_ascii_lowercase()
}

pub fn upper_of(c: u8) -> u8
    ensures { result ≡ upper c }
{
    c.to_ascii_uppercase()
}

// Whether the bytes of s, in lower case, are those of a name as far as both go.
fn agrees(s: &[u8], name: &[u8]) -> bool
    ensures { result ≡ list_all (λ p. to_ascii_lowercase p.0 == p.1) (zip s.now name.now) }
{
    s.iter()
        .zip(name)
        .all(|(a, b)| a.to_ascii_lowercase() == *b)
}

// Whether s is that name, which is given in lower case.
pub fn is_named(s: &[u8], name: &[u8]) -> bool
    ensures { result ≡ same (lowered s.now) name.now }
{
    s.len() == name.len() && agrees(s, name)
}

// Whether two names are one.
pub fn same_name(a: &[u8], b: &[u8]) -> bool
    ensures { result ≡ same (lowered a.now) (lowered b.now) }
{
    a.eq_ignore_ascii_case(b)
}
