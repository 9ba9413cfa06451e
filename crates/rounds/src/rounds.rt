ghost use Rattle.std.specs.Prelude.{◌≡◌};
ghost use Rattle.census.specs.Moods.{is_calm};
ghost use Rattle.rounds.specs.Laws.{Laws};
ghost use Rattle.rounds.specs.Model.{idle, ready, agreed, beginning, begun, notes, noted, completes};
ghost use Rattle.rounds.specs.Shown.{desk_of, number_of, verdict};

use crate::desk::{Answers, Desk, Noted};
use crate::said::Said;
use census::Mood;
use wire::{House, Refusal, RoundNumber, Tally};

// How many houses there are is handed in: kept here it would be a second copy of what the house knows.
impl Desk {
    // No round was begun yet.
    pub fn new() -> Desk
        ensures value { desk_of result ≡ idle }
        ensures lawful { Laws }
    {
        Desk {
            round: RoundNumber(0),
            answers: Answers::none(),
            before: Answers::none(),
        }
    }

    /// The number of the present round; 0 where none was begun.
    pub fn number(&self) -> RoundNumber
        ensures { result.0 ≡ (desk_of self.now).round }
    {
        self.round
    }

    // Whether the next round may begin: there is none, or all have answered it.
    fn is_ready(&self, houses: u8) -> bool
        ensures { result ≡ ready houses (desk_of self.now) }
    {
        self.round == RoundNumber(0) || self.answers.are_all(houses)
    }

    // The next round, or the present one again if not all have answered it, since its message may be lost.
    pub fn begin(self, houses: u8) -> (Desk, Result<RoundNumber, Refusal>)
        ensures value { number_of result.1 ≡ beginning houses (desk_of self) }
        ensures after { desk_of result.0 ≡ begun houses (desk_of self) }
    {
        if !self.is_ready(houses) {
            return (self, Ok(self.round));
        }
        let Some(next) = self.round.0.checked_add(1) else {
            return (self, Err(Refusal::OutOfNumbers));
        };
        let round = RoundNumber(next);
        let desk = Desk {
            round,
            answers: Answers::none(),
            before: self.answers,
        };
        (desk, Ok(round))
    }

    // Whether an answer to a round is the first of its house to the present one.
    fn is_new(&self, number: RoundNumber, from: House) -> bool
        ensures { result ≡ notes number.0 from.0 (desk_of self.now) }
    {
        number >= RoundNumber(1) && number == self.round && !self.answers.has_answered(from.0)
    }

    // Whether two rounds in a row agree. One does not show that nothing was marked while the others were asked.
    fn is_agreed(&self, houses: u8) -> bool
        ensures { result ≡ agreed houses (desk_of self.now) }
    {
        self.round >= RoundNumber(2) && self.answers.agree(&self.before, houses)
    }

    // An answer to a round came from a house.
    pub fn note(
        mut self,
        houses: u8,
        number: RoundNumber,
        from: House,
        mood: Mood,
        tally: Tally,
    ) -> (Desk, Noted)
        ensures value { result.1 ≡ verdict (notes number.0 from.0 (desk_of self)) (completes houses number.0 from.0 (is_calm mood) tally.0 (desk_of self)) }
        ensures after { desk_of result.0 ≡ noted number.0 from.0 (is_calm mood) tally.0 (desk_of self) }
    {
        if !self.is_new(number, from) {
            return (self, Noted::Ignored);
        }
        self.answers = self.answers.with(from, Said { mood, tally });
        if self.is_agreed(houses) {
            return (self, Noted::Completes);
        }
        (self, Noted::Kept)
    }
}
