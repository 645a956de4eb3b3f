// The name of the member that a pointer of JSPTR points at, byte by byte.
#![tactic(auto)]

ghost use Rattle.std.specs.Prelude.{◌≡◌, ◌<◌, length, drop};
ghost use Rattle.output.specs.Put.{Puts};
ghost use Rattle.convert_pointer.specs.Name.{name_in, Pointing, pointer_byte, pointer_next};

use output::{Full, put_byte};

// `~1` is a slash, `~0` a tilde.
pub fn pointer_byte(p: &[u8], i: usize) -> u8
    requires { Pointing (drop i p.now) × (i < length p.now) }
    ensures { result ≡ pointer_byte p.now i }
{
    let c = p[i];
    if c != b'~' {
        return c;
    }
    if p[i + 1] == b'1' {
        return b'/';
    }
    b'~'
}

pub fn pointer_next(p: &[u8], i: usize) -> usize
    requires { Pointing (drop i p.now) × (i < length p.now) }
    ensures { result ≡ pointer_next p.now i }
{
    if p[i] == b'~' {
        return i + 2;
    }
    i + 1
}

// The name, into a lent part.
pub fn read_pointer(out: &mut [u8], p: &[u8]) -> Result<usize, Full>
    requires { Pointing p.now }
    ensures { Puts out.old (name_in p.now) result out.new }
{
    let mut at = 0;
    let mut i = 0;
    while i < p.len() {
        let b = pointer_byte(p, i);
        let n = put_byte(&mut out[at..], b)?;
        at += n;
        i = pointer_next(p, i);
    }
    Ok(at)
}
