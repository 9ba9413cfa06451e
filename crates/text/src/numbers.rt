ghost use Rattle.std.specs.Prelude.{◌≡◌, ℕ, List, Option};
ghost use Rattle.text.specs.Numbers.{decimal, capped, number_value, name_value, house_value};

use wire::{House, Name};

// What a number of more digits than this counts as: it is out of every range.
const MOST: u64 = 1_000_000_000_000_000_000;

// The value of a decimal number of any length, or none where the word is no number.
pub fn decimal_value(word: &[u8]) -> Option<u64>
    ensures { result ≡ capped (decimal word.now) }
{
    if word.is_empty() {
        return None;
    }
    let mut n = 0;
    for c in word {
        let digit = char::from(*c).to_digit(10)?;
        n = (n * 10 + u64::from(digit)).min(MOST);
    }
    Some(n)
}

// What can be read of one word.
pub trait FromWord: Sized + Drop {
    ghost from_word_gives: { List ℕ → Option Self };

    fn from_word(word: &[u8]) -> Option<Self>
        ensures { result ≡ from_word_gives word.now };
}

impl FromWord for u64 {
    ghost from_word_gives = { number_value };

    fn from_word(word: &[u8]) -> Option<u64> {
        decimal_value(word)
    }
}

impl FromWord for Name {
    ghost from_word_gives = { name_value };

    fn from_word(word: &[u8]) -> Option<Name> {
        u32::try_from(decimal_value(word)?).ok().map(Name)
    }
}

// Whether there is such a house is seen elsewhere.
impl FromWord for House {
    ghost from_word_gives = { house_value };

    fn from_word(word: &[u8]) -> Option<House> {
        u8::try_from(decimal_value(word)?).ok().map(House)
    }
}
