// The classes of a byte: one table of 256 entries, whose agreement with the ranges is computed once over all of them.
// Callers know only the ranges: the table may go without their noticing.
// By them, whether a line is UTF-8 and has no controls (refusal 4).
#![tactic(auto)]

ghost use Rattle.std.specs.Prelude.{◌≡◌, ◌+◌, length, drop, get_or, ◌||◌, not};
ghost use Rattle.text.specs.Bytes.{all, any};
ghost use Rattle.text.specs.Reader.{taken};
ghost use Rattle.line.specs.Class.{is_name, is_bare, is_quotable, is_control};
ghost use Rattle.line_class.specs.Classes.{in_class, bit_of, has_bit, Agrees};
ghost use Rattle.line_class.specs.Odd.{is_odd};
ghost use Rattle.text.specs.Utf8.{utf8};

#[derive(Clone, Copy)]
pub enum Class {
    Name,
    LowerName,
    Bare,
    Quotable,
    Control,
    Blank,
    Key,
    Stem,
}

// The constant is copied wherever it is named: this is the one place.
fn classes() -> [u8; 256]
    ensures { Agrees result }
{
    CLASSES
}

// The bits by name, as specs/Classes says them: a shift by the place among the classes is no plainer.
fn bit(class: Class) -> u8
    ensures { result ≡ bit_of class }
{
    match class {
        Class::Name => 1,
        Class::LowerName => 2,
        Class::Bare => 4,
        Class::Quotable => 8,
        Class::Control => 16,
        Class::Blank => 32,
        Class::Key => 64,
        Class::Stem => 128,
    }
}

fn marked(table: &[u8; 256], b: u8, mask: u8) -> bool
    ensures { result ≡ has_bit (get_or table.now b 0) mask }
{
    table[b as usize] & mask != 0
}

// Whether b is of the class. For many bytes use all_of, which lays out the table once.
pub fn in_class(b: u8, class: Class) -> bool
    ensures { result ≡ in_class class b }
{
    let table = classes();
    let mask = bit(class);
    marked(&table, b, mask)
}

// Most bytes of names are letters: they are asked for first, and nothing else of them.
fn is_name(b: u8) -> bool
    ensures { result ≡ is_name b }
{
    if ((b >= b'A') & (b <= b'Z')) | ((b >= b'a') & (b <= b'z')) {
        return true;
    }
    ((b >= b'0') & (b <= b'9')) | (b == b'-')
}

fn is_bare(b: u8) -> bool
    ensures { result ≡ is_bare b }
{
    !((b == b'"') | (b == b';') | (b == b':') | (b == b','))
}

fn is_quotable(b: u8) -> bool
    ensures { result ≡ is_quotable b }
{
    b != b'"'
}

// Whether b is of the class. The three of the line grammar by their ranges: to lay out the table for a run of a few bytes takes longer than the run.
fn in_run(b: u8, class: Class) -> bool
    ensures { result ≡ in_class class b }
{
    match class {
        Class::Name => is_name(b),
        Class::Bare => is_bare(b),
        Class::Quotable => is_quotable(b),
        _ => in_class(b, class),
    }
}

// Where the bytes of the class that start at `at` end. The place is the answer: a `for` is no plainer.
pub fn run_end(s: &[u8], at: usize, class: Class) -> usize
    ensures { result ≡ at + length (taken (in_class class) (drop at s.now)) }
{
    let mut i = at;
    while i < s.len() {
        if !in_run(s[i], class) {
            return i;
        }
        i += 1;
    }
    i
}

// Whether all bytes of s are of the class.
pub fn all_of(s: &[u8], class: Class) -> bool
    ensures { result ≡ all (in_class class) s.now }
{
    let table = classes();
    let mask = bit(class);
    // No `all`: tried, and its proof did not close.
    for b in s {
        if !marked(&table, *b, mask) {
            return false;
        }
    }
    true
}

// A bit for each class, by `bit`.
const CLASSES: [u8; 256] = [
    28, 28, 28, 28, 28, 28, 28, 28, 28, 44, 28, 28, 28, 28, 28, 28, 28, 28, 28, 28, 28, 28, 28, 28,
    28, 28, 28, 28, 28, 28, 28, 28, 44, 12, 0, 12, 12, 12, 12, 12, 12, 12, 12, 12, 8, 207, 12, 12,
    207, 207, 207, 207, 207, 207, 207, 207, 207, 207, 136, 8, 12, 12, 12, 12, 12, 205, 205, 205,
    205, 205, 205, 205, 205, 205, 205, 205, 205, 205, 205, 205, 205, 205, 205, 205, 205, 205, 205,
    205, 205, 205, 205, 12, 12, 12, 12, 204, 12, 207, 207, 207, 207, 207, 207, 207, 207, 207, 207,
    207, 207, 207, 207, 207, 207, 207, 207, 207, 207, 207, 207, 207, 207, 207, 207, 12, 12, 12, 12,
    28, 12, 12, 12, 12, 12, 12, 12, 12, 12, 12, 12, 12, 12, 12, 12, 12, 12, 12, 12, 12, 12, 12, 12,
    12, 12, 12, 12, 12, 12, 12, 12, 12, 12, 12, 12, 12, 12, 12, 12, 12, 12, 12, 12, 12, 12, 12, 12,
    12, 12, 12, 12, 12, 12, 12, 12, 12, 12, 12, 12, 12, 12, 12, 12, 12, 12, 12, 12, 12, 12, 12, 12,
    12, 12, 12, 12, 12, 12, 12, 12, 12, 12, 12, 12, 12, 12, 12, 12, 12, 12, 12, 12, 12, 12, 12, 12,
    12, 12, 12, 12, 12, 12, 12, 12, 12, 12, 12, 12, 12, 12, 12, 12, 12, 12, 12, 12, 12, 12, 12, 12,
    12, 12, 12, 12, 12, 12, 12, 12, 12,
];

fn is_control(b: u8) -> bool
    ensures { result ≡ is_control b }
{
    ((b < 32) & (b != 9)) | (b == 127)
}

// A control, or no ASCII.
fn is_odd(b: u8) -> bool
    ensures { result ≡ is_odd b }
{
    is_control(b) | !(b < 128)
}

// No early way out: the loop is a vector loop.
pub fn has_odd(line: &[u8]) -> bool
    ensures { result ≡ any is_odd line.now }
{
    // No `fold`: tried, and its proof did not close.
    let mut found = false;
    for b in line {
        found |= is_odd(*b);
    }
    found
}

// The same for controls alone.
pub fn has_control(line: &[u8]) -> bool
    ensures { result ≡ any is_control line.now }
{
    let mut found = false;
    for b in line {
        found |= is_control(*b);
    }
    found
}

pub fn is_garbled(line: &[u8]) -> bool
    ensures { result ≡ (not (utf8 line.now) || any is_control line.now) }
{
    if !has_odd(line) {
        return false;
    }
    if !utf8::is_utf8(line) {
        return true;
    }
    has_control(line)
}
