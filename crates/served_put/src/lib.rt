// A service's result to its lent output.
#![tactic(auto)]

ghost use Rattle.std.specs.Prelude.{length};
ghost use Rattle.served.specs.Served.{Serves};
ghost use Rattle.served_put.specs.Lent.{fit_lent};

use output::put_text;
use served::Refusal;

// 14 where the result is longer than the lent output, and then no byte is written.
pub fn put_served(out: &mut [u8], text: &[u8]) -> Result<usize, Refusal>
    ensures { Serves out.old (fit_lent (length out.old) text.now) result out.new }
{
    if text.len() > out.len() {
        return Err(Refusal {
            number: 14,
            place: 0,
        });
    }
    let Ok(k) = put_text(out, text) else {
        return Err(Refusal {
            number: 14,
            place: 0,
        });
    };
    Ok(k)
}
