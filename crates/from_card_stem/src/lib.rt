// The stem and the card number of a made UID (refusal 15).
#![tactic(auto)]

ghost use Rattle.std.specs.Prelude.{◌≡◌};
ghost use Rattle.convert.specs.Answers.{is_stem_text, is_card_number};

use card_table::limits;
use line_class::Class;

// 1 to 200 characters of A-Z a-z 0-9 : - _
pub fn is_stem(stem: &[u8]) -> bool
    ensures { result ≡ is_stem_text stem.now }
{
    if stem.len() == 0 {
        return false;
    }
    if stem.len() > limits::STEM {
        return false;
    }
    line_class::all_of(stem, Class::Stem)
}

pub fn is_card_number(n: usize) -> bool
    ensures { result ≡ is_card_number n }
{
    (1 <= n) & (n <= limits::NUMBER)
}
