// A decimal number of 1 to 13 digits.
ghost use Rattle.std.specs.Prelude.{◌≡◌};
ghost use Rattle.std.specs.Option.{ok_or};
ghost use Rattle.words.specs.Numbers.{is_numeral, numeral};

use crate::faults::FieldFault;

// Any number of so many digits fits 64 bits.
const MOST_DIGITS: usize = 13;

// Whether the word is 1 to 13 digits and nothing else.
fn is_numeral(word: &[u8]) -> bool
    ensures { result ≡ is_numeral word.now }
{
    (1..=MOST_DIGITS).contains(&word.len()) && word.iter().all(u8::is_ascii_digit)
}

// The number that the word writes; `place` is the field's place on its line, from 1.
#[tactic(auto, using(crate::proofs::Numerals::reading))]
pub fn number(word: &[u8], place: usize) -> Result<u64, FieldFault>
    ensures { result ≡ ok_or (numeral word.now) (FieldFault.NotANumber place) }
{
    if !is_numeral(word) {
        return Err(FieldFault::NotANumber { place });
    }
    let mut n = 0;
    for digit in word {
        n = n * 10 + u64::from(*digit - b'0');
    }
    Ok(n)
}
