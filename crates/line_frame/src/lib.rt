// Physical lines, and the frame of one card.
#![tactic(auto)]

ghost use Rattle.std.specs.Prelude.{◌≡◌, true, false, ◌+◌, ◌≤◌, ◌<◌, length, drop};
ghost use Rattle.text.specs.Reader.{taken};
ghost use Rattle.line.specs.Physical.{size_of, is_begin, is_end};
ghost use Rattle.line_frame.specs.Lines.{not_lf, SameLf, cr_end, LineAt};
ghost use Rattle.line_frame.specs.Frame.{Ends, Framed};

use line_name::is_named;
use text_words::line_end;

// The bytes of a card: the LF that is supposed at the end counts.
pub fn size_of(s: &[u8]) -> usize
    ensures { result ≡ size_of s.now }
{
    let n = s.len();
    if n == 0 {
        return 1;
    }
    let last = n - 1;
    if s[last] == 10 {
        return n;
    }
    n + 1
}

// Whether one of sixteen bytes is an LF. No early way out: one test of a vector.
fn has_lf(s: &[u8], at: usize) -> bool
    requires { at + 16 ≤ length s.now }
    ensures { result ≡ false → SameLf s.now at (at + 16) }
{
    let mut found = false;
    for k in 0..16 {
        found |= s[at + k] == 10;
    }
    found
}

// Whether sixteen bytes stand there, and none of them is an LF.
fn skips(s: &[u8], at: usize) -> bool
    ensures { result ≡ true → (at + 16 ≤ length s.now) × SameLf s.now at (at + 16) }
{
    if s.len() <= at {
        return false;
    }
    if s.len() - at < 16 {
        return false;
    }
    !has_lf(s, at)
}

// Where the line that begins at `at` has its LF, or where the bytes end: by sixteens up to the last one, and by words in it.
pub fn lf_at(s: &[u8], at: usize) -> usize
    ensures { result ≡ at + length (taken not_lf (drop at s.now)) }
{
    let mut i = at;
    while skips(s, i) {
        i += 16;
    }
    line_end(s, i)
}

// A physical line: where its bytes end, and where the next begins.
#[derive(Drop)]
pub struct Line {
    pub end: usize,
    pub next: usize,
}

// A CR just before the LF belongs to the line's end.
fn before_cr(s: &[u8], at: usize, lf: usize) -> usize
    requires { lf ≤ length s.now }
    ensures { result ≡ cr_end s.now at lf }
{
    if lf <= at {
        return lf;
    }
    let last = lf - 1;
    if s[last] == 13 {
        return last;
    }
    lf
}

// The physical line that begins at `at`. Where the last LF is missing, one is supposed.
pub fn next_line(s: &[u8], at: usize) -> Line
    requires { at < length s.now }
    ensures { LineAt s.now at result }
{
    let lf = lf_at(s, at);
    let end = before_cr(s, at, lf);
    if lf < s.len() {
        return Line { end, next: lf + 1 };
    }
    Line { end, next: lf }
}

fn is_begin(line: &[u8]) -> bool
    ensures { result ≡ is_begin line.now }
{
    is_named(line, b"begin:vcard")
}

fn is_end(line: &[u8]) -> bool
    ensures { result ≡ is_end line.now }
{
    is_named(line, b"end:vcard")
}

// Where the END line begins: it comes last, and no other such line before it.
fn end_from(s: &[u8], at: usize) -> Option<usize>
    ensures { Ends s.now at result }
{
    // From line to line: the steps are not even, so no `for`.
    let mut i = at;
    while i < s.len() {
        let line = next_line(s, i);
        let end = line.end;
        let next = line.next;
        if is_end(&s[i..end]) {
            if next < s.len() {
                return None;
            }
            return Some(i);
        }
        if is_begin(&s[i..end]) {
            return None;
        }
        i = next;
    }
    None
}

// Where the lines between BEGIN and END stand.
#[derive(Clone, Copy)]
pub struct Body {
    pub start: usize,
    pub end: usize,
}

// One card: BEGIN first, END last, no other such line.
pub fn frame_of(s: &[u8]) -> Option<Body>
    ensures { Framed s.now result }
{
    if s.len() == 0 {
        return None;
    }
    let first = next_line(s, 0);
    let end = first.end;
    let start = first.next;
    if !is_begin(&s[0..end]) {
        return None;
    }
    let stop = end_from(s, start)?;
    Some(Body { start, end: stop })
}
