// Writers into a lent part of the output: each is lent the rest of the room.
#![tactic(auto)]

ghost use Rattle.std.specs.Prelude.{◌∷◌, []};
ghost use Rattle.text.specs.Bytes.{flat};
ghost use Rattle.output.specs.Put.{Puts};

// What a writer could not write whole: it did not fit. Else it tells how many bytes it wrote.
#[derive(Clone, Copy)]
pub struct Full;

// Copies src to the start of out, or as much as there is room for: by a loop, since the library's method is a call of `memmove`, which nothing else here needs.
pub fn put_text(out: &mut [u8], src: &[u8]) -> Result<usize, Full>
    ensures { Puts out.old src.now result out.new }
{
    for i in 0..src.len() {
        if i >= out.len() {
            return Err(Full);
        }
        out[i] = src[i];
    }
    Ok(src.len())
}

// One byte.
pub fn put_byte(out: &mut [u8], b: u8) -> Result<usize, Full>
    ensures { Puts out.old (b ∷ []) result out.new }
{
    if out.len() == 0 {
        return Err(Full);
    }
    out[0] = b;
    Ok(1)
}

// Two texts, one after the other.
pub fn put_two(out: &mut [u8], a: &[u8], b: &[u8]) -> Result<usize, Full>
    ensures { Puts out.old (flat (a.now ∷ b.now ∷ [])) result out.new }
{
    let n = put_text(out, a)?;
    let m = put_text(&mut out[n..], b)?;
    let nm = n + m;
    Ok(nm)
}
