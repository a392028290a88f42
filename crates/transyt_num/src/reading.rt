//! A word of digits read as a number.

ghost use Rattle.std.specs.Prelude.{◌≡◌, ◌<◌, IfSome};
ghost use Rattle.transyt_num.specs.Number.{number_of};

/// The value of a word of 1 to 9 decimal digits; None for every other word. Zeros in front are allowed.
#[tactic(auto, using(crate::proofs::Digits::eight_digits))]
pub fn read_number(word: &[u8]) -> Option<u32>
    ensures value { result ≡ number_of word.now }
    ensures small { IfSome result (λ value. value < 1000000000) }
{
    if word.is_empty() || word.len() > 9 {
        return None;
    }
    let mut value: u32 = 0;
    for byte in word {
        if !byte.is_ascii_digit() {
            return None;
        }
        value = value * 10 + u32::from(*byte - b'0');
    }
    Some(value)
}
