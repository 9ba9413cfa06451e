ghost use Rattle.std.specs.Prelude.{◌≡◌, true, is_ok, IfOk, if◌then◌else◌};
ghost use Rattle.tables.specs.Shown.{numbers};
ghost use Rattle.census.specs.Laws.{Laws};
ghost use Rattle.census.specs.Model.{fresh, joined, joining, telling, due_of, calm, counting, stirring};
ghost use Rattle.census.specs.Standings.{part_of, newly};

use crate::standing::{FirstRound, Standing};
use crate::tellings::Tellings;
use std::alloc::{AllocError, Global};
use wire::{Census, Name, Refusal, Tally};

// What a telling did to the line of its object and its house.
#[derive(Clone, Copy, Debug, PartialEq, Eq)]
pub enum Marked {
    // the line had another number, and has the census's now
    New,
    // the line had the census's number before
    Again,
    // there is no such line
    NoLine,
}

impl Standing {
    // The part of a house in census 0, before the first.
    pub fn new(heap: Global) -> Standing
        ensures value { part_of result ≡ fresh 0 }
        ensures lawful { Laws }
    {
        Standing {
            census: Census(0),
            told: Tellings::new(heap),
            tally: Tally(0),
            first: FirstRound::Ahead,
        }
    }

    // The number of the census that the house is in.
    pub fn census(&self) -> Census
        ensures { result.0 ≡ (part_of self.now).census }
    {
        self.census
    }

    // How many lines of the list were newly marked in it.
    pub fn tally(&self) -> Tally
        ensures { result.0 ≡ (part_of self.now).tally }
    {
        self.tally
    }

    // The house joins a census, which has to be above its own.
    pub fn join(self, census: Census) -> (Standing, Result<(), Refusal>)
        ensures value { result.1 ≡ joining census.0 (part_of self) }
        ensures after { part_of result.0 ≡ joined census.0 (part_of self) }
    {
        if census <= self.census {
            return (self, Err(Refusal::OutOfNumbers));
        }
        (self.begun(census), Ok(()))
    }

    // All begins anew in this census.
    fn begun(mut self, census: Census) -> Standing
        ensures { part_of result ≡ fresh census.0 }
    {
        self.census = census;
        self.told.clear();
        self.tally = Tally(0);
        self.first = FirstRound::Ahead;
        self
    }

    // The house tells: what is in use is told now, and all that is not answered is to be sent, each name once, rising,
    // also what was sent before, since that may be lost. Where memory is wanting nothing changes, and a calm house asks for none.
    pub fn tell(mut self, in_use: &[Name]) -> (Standing, Result<Vec<Name>, AllocError>)
        ensures due { IfOk result.1 (λ v. numbers v.items ≡ due_of (numbers in_use.now) (part_of self)) }
        ensures after { part_of result.0 ≡ (if is_ok result.1 then telling (numbers in_use.now) (part_of self) else part_of self) }
        ensures quiet { calm (numbers in_use.now) (part_of self) ≡ true → is_ok result.1 ≡ true }
    {
        let due = self.told.tell(in_use);
        (self, due)
    }

    // A telling came: the tally grows if it gave a line its number.
    pub fn counted(mut self, line: Marked) -> Standing
        ensures { part_of result ≡ counting (newly line) (part_of self) }
    {
        if line == Marked::New {
            self.tally = Tally(self.tally.0.saturating_add(1));
        }
        self
    }

    // The house has taken a reference that was handed to it.
    pub fn taken(mut self) -> Standing
        ensures { part_of result ≡ stirring (part_of self) }
    {
        if self.first == FirstRound::Polled {
            self.first = FirstRound::Stirred;
        }
        self
    }
}
