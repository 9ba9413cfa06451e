ghost use Rattle.std.specs.Prelude.{◌≡◌, IfOk, Some, decimal};
ghost use Rattle.wire.specs.Names.{home_of, number_of, named, Parts, well_formed};

use crate::refusal::Refusal;
use std::fmt;

// House: a machine that takes part. The houses are counted from 0, and there are at most sixteen.
#[derive(Clone, Copy, Debug, PartialEq, Eq, PartialOrd, Ord)]
pub struct House(pub u8);

// An object's name: sixteen times its number, which is at least 1, plus its home, the house that it lives in.
#[derive(Clone, Copy, Debug, Default, PartialEq, Eq, PartialOrd, Ord)]
pub struct Name(pub u32);

// Stamp: the count of references that one house has handed to another, so that late and doubled ones can be told.
#[derive(Clone, Copy, Debug, PartialEq, Eq, PartialOrd, Ord)]
pub struct Stamp(pub u32);

// Census: a marking of all that is in use in all houses, by its number; 0 is before the first.
#[derive(Clone, Copy, Debug, PartialEq, Eq, PartialOrd, Ord)]
pub struct Census(pub u32);

// The number of a round of questions within a census; 0 is before the first.
#[derive(Clone, Copy, Debug, PartialEq, Eq, PartialOrd, Ord)]
pub struct RoundNumber(pub u32);

// Tally: how many lines a house has marked in its census because it was told to.
#[derive(Clone, Copy, Debug, PartialEq, Eq, PartialOrd, Ord)]
pub struct Tally(pub u32);

impl Name {
    // The name with this number at this home.
    pub fn new(number: u64, home: House) -> Result<Name, Refusal>
        ensures value { result ≡ named number home }
        ensures parts { IfOk result (λ n. Parts n number home) }
    {
        if number == 0 || home.0 >= 16 {
            return Err(Refusal::Malformed);
        }
        if number >= 268435456 {
            return Err(Refusal::OutOfNumbers);
        }
        // fits after the test above
        Ok(Name(number as u32 * 16 + u32::from(home.0)))
    }

    // The house that the object lives in.
    pub fn home(self) -> House
        ensures { result ≡ home_of self }
    {
        // a rest by 16 fits
        House((self.0 % 16) as u8)
    }

    // The number that the object was made with.
    pub fn number(self) -> u32
        ensures { result ≡ number_of self }
    {
        self.0 / 16
    }

    // Whether this can be the name of an object in one of `houses` houses.
    pub fn is_well_formed(self, houses: u8) -> bool
        ensures { result ≡ well_formed houses self }
    {
        self.0 >= 16 && self.home().0 < houses
    }
}

// Each number prints as it is. One impl for each type: the gate takes none that a macro of this repository wrote.
impl fmt::Display for House {
    ghost output = { λ x. Some (decimal x.0) };

    fn fmt<W: fmt::Write>(&self, f: &mut fmt::Formatter<W>) -> fmt::Result {
        let house = self.0;
        write!(f, "{house}")
    }
}

impl fmt::Display for Name {
    ghost output = { λ x. Some (decimal x.0) };

    fn fmt<W: fmt::Write>(&self, f: &mut fmt::Formatter<W>) -> fmt::Result {
        let name = self.0;
        write!(f, "{name}")
    }
}

impl fmt::Display for Stamp {
    ghost output = { λ x. Some (decimal x.0) };

    fn fmt<W: fmt::Write>(&self, f: &mut fmt::Formatter<W>) -> fmt::Result {
        let stamp = self.0;
        write!(f, "{stamp}")
    }
}

impl fmt::Display for Census {
    ghost output = { λ x. Some (decimal x.0) };

    fn fmt<W: fmt::Write>(&self, f: &mut fmt::Formatter<W>) -> fmt::Result {
        let census = self.0;
        write!(f, "{census}")
    }
}
