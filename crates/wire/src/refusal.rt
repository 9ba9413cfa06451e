ghost use Rattle.std.specs.Prelude.{◌≡◌, Some, decimal};
ghost use Rattle.wire.specs.Refusals.{number_of};

use std::fmt;

// Why a call or a message changed nothing. Each case has a number, which is what programs print.
#[derive(Clone, Copy, Debug, PartialEq, Eq)]
pub enum Refusal {
    // no message or call of the right form
    Malformed = 1,
    // the message is for another house
    Misdelivered = 2,
    // the object is no root, or lives elsewhere where it must live here
    NotRoot = 3,
    // the object has no such field
    NoField = 4,
    // the object is not here
    NotHere = 5,
    // the asker has no line of this census, or the home no root
    NotHolder = 6,
    // the stamp is not above the highest seen
    OldStamp = 7,
    // of another census than the house's
    OtherCensus = 8,
    // no room for an object, a field, a root or a line
    NoRoom = 9,
    // a number that does not rise, or a counter at its end
    OutOfNumbers = 10,
    // not a call for this house
    WrongHouse = 11,
}

impl Refusal {
    // The number that stands for the case.
    pub fn number(self) -> u8
        ensures { result ≡ number_of self }
    {
        self as u8
    }
}

impl fmt::Display for Refusal {
    ghost output = { λ refusal. Some (decimal (number_of refusal)) };

    fn fmt<W: fmt::Write>(&self, f: &mut fmt::Formatter<W>) -> fmt::Result {
        write!(f, "{}", self.number())
    }
}
