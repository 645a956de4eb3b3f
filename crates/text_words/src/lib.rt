// The end of a run of bytes that pass a test, eight bytes at a time, for long strings and lines. A word has eight bytes, the first in its lowest eight bits; of its
// marks, one in the highest bit of each byte, those are set whose byte does not pass. The tests are on the low seven bits, so that no sum leaves its byte.
#![tactic(auto)]

ghost use Rattle.std.specs.Prelude.{◌≡◌, ℕ, Bool, ◌+◌, ◌≤◌, length, drop};
ghost use Rattle.text.specs.Reader.{taken};
ghost use Rattle.text_words.specs.Words.{Loaded, Marks, FirstMark, soft, bare, raw, plain, no_lf, stored};

// The low seven bits of each byte of a word, and its highest one, the mark.
const LOW: u64 = 0x7f7f7f7f7f7f7f7f;

const MARK: u64 = 0x8080808080808080;

// Eight of one byte.
const QUOTES: u64 = 0x2222222222222222;

const BACKSLASHES: u64 = 0x5c5c5c5c5c5c5c5c;

const COMMAS: u64 = 0x2c2c2c2c2c2c2c2c;

const SEMICOLONS: u64 = 0x3b3b3b3b3b3b3b3b;

const DELETES: u64 = 0x7f7f7f7f7f7f7f7f;

const LINE_FEEDS: u64 = 0x0a0a0a0a0a0a0a0a;

// What makes a byte of 32 or more reach the mark: 128 less 32.
const OVER_CONTROLS: u64 = 0x6060606060606060;

// A byte as a word.
fn wide(b: u8) -> u64
    ensures { result ≡ b }
{
    b as u64
}

// Two bytes, then four, then eight: as sums, each of which fits. The three stay three functions: a loop over a size would be no plainer, and its proof longer.
fn pair_at(s: &[u8], at: usize) -> u64
    requires { at + 2 ≤ length s.now }
    ensures { Loaded 2 s.now at result }
{
    wide(s[at]) + wide(s[at + 1]) * 256
}

fn half_at(s: &[u8], at: usize) -> u64
    requires { at + 4 ≤ length s.now }
    ensures { Loaded 4 s.now at result }
{
    pair_at(s, at) + pair_at(s, at + 2) * 65536
}

// Eight bytes from a place on, the first in the lowest eight bits: compiled to one load.
pub fn word_at(s: &[u8], at: usize) -> u64
    requires { at + 8 ≤ length s.now }
    ensures { Loaded 8 s.now at result }
{
    half_at(s, at) + half_at(s, at + 4) * 4294967296
}

// The bytes before the first mark, and 8 where there is none.
pub fn first_mark(m: u64) -> usize
    ensures { FirstMark m result }
{
    (u64::trailing_zeros(m) / 8) as usize
}

// ---- a class of bytes, and the run of them

// A class of bytes, which a run goes on over.
trait Run {
    ghost passes: { ℕ → Bool };

    fn one(b: u8) -> bool
        ensures { result ≡ passes b };

    // The marks of a word: at all bytes that are not of the class.
    fn marks(w: u64) -> u64
        ensures { Marks passes w result };
}

// The end of the run, byte by byte: for the last seven bytes. Here and in run_end the place is the answer: a `for` is no plainer.
fn run_from<R: Run>(s: &[u8], at: usize) -> usize
    ensures { result ≡ at + length (taken R.passes (drop at s.now)) }
{
    let mut i = at;
    while i < s.len() {
        if !R::one(s[i]) {
            return i;
        }
        i += 1;
    }
    i
}

// The end of the run of such bytes.
fn run_end<R: Run>(s: &[u8], at: usize) -> usize
    ensures { result ≡ at + length (taken R.passes (drop at s.now)) }
{
    if at > s.len() {
        return at;
    }
    let mut i = at;
    while i + 8 <= s.len() {
        let m = R::marks(word_at(s, i));
        if m != 0 {
            return i + first_mark(m);
        }
        i += 8;
    }
    run_from::<R>(s, i)
}

// Bytes neither a quote nor a backslash: strings passed over.
struct Soft;

impl Run for Soft {
    ghost passes = { soft };

    fn one(b: u8) -> bool {
        !((b == b'"') | (b == b'\\'))
    }

    fn marks(w: u64) -> u64 {
        let v = w & LOW;
        let quote = (v ^ QUOTES) + LOW;
        let backslash = (v ^ BACKSLASHES) + LOW;
        (((quote & backslash) | w) & MARK) ^ MARK
    }
}

pub fn soft_end(s: &[u8], at: usize) -> usize
    ensures { result ≡ at + length (taken soft (drop at s.now)) }
{
    run_end::<Soft>(s, at)
}

// Bytes that stand for themselves in a JSON string, those beyond ASCII too: strings decoded.
struct Bare;

impl Run for Bare {
    ghost passes = { bare };

    fn one(b: u8) -> bool {
        (b >= 32) & Soft::one(b)
    }

    fn marks(w: u64) -> u64 {
        let v = w & LOW;
        let quote = (v ^ QUOTES) + LOW;
        let backslash = (v ^ BACKSLASHES) + LOW;
        let control = v + OVER_CONTROLS;
        (((quote & backslash & control) | w) & MARK) ^ MARK
    }
}

pub fn bare_end(s: &[u8], at: usize) -> usize
    ensures { result ≡ at + length (taken bare (drop at s.now)) }
{
    run_end::<Bare>(s, at)
}

// Bytes of ASCII that stand for themselves in a JSON string: strings judged.
struct Raw;

impl Run for Raw {
    ghost passes = { raw };

    fn one(b: u8) -> bool {
        (b <= 127) & Bare::one(b)
    }

    fn marks(w: u64) -> u64 {
        let v = w & LOW;
        let quote = (v ^ QUOTES) + LOW;
        let backslash = (v ^ BACKSLASHES) + LOW;
        let control = v + OVER_CONTROLS;
        (((quote & backslash & control) ^ MARK) | w) & MARK
    }
}

pub fn raw_end(s: &[u8], at: usize) -> usize
    ensures { result ≡ at + length (taken raw (drop at s.now)) }
{
    run_end::<Raw>(s, at)
}

// Bytes that stand for themselves in a JSON string and in a line of every style: strings written into lines.
struct Plain;

impl Run for Plain {
    ghost passes = { plain };

    fn one(b: u8) -> bool {
        !((b == 127) | ((b == b',') | (b == b';'))) & Bare::one(b)
    }

    fn marks(w: u64) -> u64 {
        let v = w & LOW;
        let quote = (v ^ QUOTES) + LOW;
        let backslash = (v ^ BACKSLASHES) + LOW;
        let comma = (v ^ COMMAS) + LOW;
        let semicolon = (v ^ SEMICOLONS) + LOW;
        let del = (v ^ DELETES) + LOW;
        let control = v + OVER_CONTROLS;
        (((quote & backslash & comma & semicolon & del & control) | w) & MARK) ^ MARK
    }
}

pub fn plain_end(s: &[u8], at: usize) -> usize
    ensures { result ≡ at + length (taken plain (drop at s.now)) }
{
    run_end::<Plain>(s, at)
}

// Bytes that are no LF.
struct Line;

impl Run for Line {
    ghost passes = { no_lf };

    fn one(b: u8) -> bool {
        b != b'\n'
    }

    fn marks(w: u64) -> u64 {
        let v = w & LOW;
        let lf = (v ^ LINE_FEEDS) + LOW;
        ((lf | w) & MARK) ^ MARK
    }
}

pub fn line_end(s: &[u8], at: usize) -> usize
    ensures { result ≡ at + length (taken no_lf (drop at s.now)) }
{
    run_end::<Line>(s, at)
}

// ---- a word put back

// Two bytes, then four, then eight.
fn put_pair(out: &mut [u8], to: usize, w: u64)
    requires { to + 2 ≤ length out.old }
    ensures { out.new ≡ stored 2 w to out.old }
{
    out[to] = (w % 256) as u8;
    out[to + 1] = (w / 256 % 256) as u8;
}

fn put_half(out: &mut [u8], to: usize, w: u64)
    requires { to + 4 ≤ length out.old }
    ensures { out.new ≡ stored 4 w to out.old }
{
    put_pair(out, to, w);
    put_pair(out, to + 2, w / 65536);
}

// The eight bytes of a word, from a place on: compiled to one store.
pub fn put_word(out: &mut [u8], to: usize, w: u64)
    requires { to + 8 ≤ length out.old }
    ensures { out.new ≡ stored 8 w to out.old }
{
    put_half(out, to, w);
    put_half(out, to + 4, w / 4294967296);
}
