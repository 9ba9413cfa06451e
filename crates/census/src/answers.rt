ghost use Rattle.std.specs.Prelude.{◌≡◌, ℕ, true, not, ◌&&◌, List, ◌==◌};
ghost use Rattle.tables.specs.Model.{rising};
ghost use Rattle.census.specs.Model.{names, within, hearing, all_told, all_answered, polling, replied, replying};
ghost use Rattle.census.specs.Moods.{is_calm};
ghost use Rattle.census.specs.Shown.{names_in};
ghost use Rattle.census.specs.Standings.{part_of};

use crate::mood::Mood;
use crate::standing::{FirstRound, Standing};
use crate::telling::Told;
use wire::{Census, House, Message, Name, Refusal, RoundNumber};

impl Standing {
    // A message of another census is refused.
    fn of_census(&self, census: Census) -> Result<(), Refusal>
        ensures { result ≡ within census.0 (part_of self.now) }
    {
        if census != self.census {
            return Err(Refusal::OtherCensus);
        }
        Ok(())
    }

    // An answer came to the telling of `object` in `census`.
    pub fn answered(mut self, census: Census, object: Name) -> (Standing, Result<(), Refusal>)
        ensures value { result.1 ≡ within census.0 (part_of self) }
        ensures after { part_of result.0 ≡ hearing census.0 object.0 (part_of self) }
    {
        let answer = self.hear(census, object);
        (self, answer)
    }

    fn hear(&mut self, census: Census, object: Name) -> Result<(), Refusal>
        ensures value { result ≡ within census.0 (part_of self.old) }
        ensures after { part_of self.new ≡ hearing census.0 object.0 (part_of self.old) }
    {
        self.of_census(census)?;
        self.told.settle(object);
        Ok(())
    }

    /// The references that were told in this census, in rising order of their names. The house has told all that it uses if all of it stands there.
    pub fn told(&self) -> &[Told]
        ensures names { names_in result.now ≡ names (part_of self.now).told }
        ensures rises { rising (names_in result.now) ≡ true }
    {
        self.told.entries()
    }

    /// Calm if every far reference in use was told in this census (`has_told`), and every telling answered, also of what is in use no longer.
    pub fn mood(&self, has_told: bool) -> Mood
        ensures { is_calm result ≡ (has_told && all_answered (part_of self.now)) }
    {
        Mood::from(has_told && self.told.count_unanswered() == 0)
    }

    // What the house says to a round. Until every house has answered round 1, one that is not in the census yet may hand out a
    // reference by a line with an older number, which nobody has to mark. So to round 2 a house that took one since it answered is restless.
    fn says(&self, number: RoundNumber, has_told: bool) -> Mood
        ensures { is_calm result ≡ (not (number.0 == 2 && (part_of self.now).stirred) && (has_told && all_answered (part_of self.now))) }
    {
        if number == RoundNumber(2) && self.first == FirstRound::Stirred {
            return Mood::Restless;
        }
        self.mood(has_told)
    }

    // The house has answered a round.
    fn poll(&mut self, number: RoundNumber)
        ensures { part_of self.new ≡ polling number.0 (part_of self.old) }
    {
        if number == RoundNumber(1) && self.first == FirstRound::Ahead {
            self.first = FirstRound::Polled;
        }
    }

    /// What house `from`, which this part is of, answers to a round of its own census. A higher one has to be joined first.
    /// `has_told` says whether every far reference in use was told.
    pub fn reply(
        mut self,
        from: House,
        census: Census,
        number: RoundNumber,
        has_told: bool,
    ) -> (Standing, Result<Message, Refusal>)
        ensures value { (us : List ℕ) → has_told ≡ all_told us (part_of self) → result.1 ≡ replying from census.0 number.0 us (part_of self) }
        ensures after { part_of result.0 ≡ replied census.0 number.0 (part_of self) }
    {
        let answer = self.respond(from, census, number, has_told);
        (self, answer)
    }

    fn respond(
        &mut self,
        from: House,
        census: Census,
        number: RoundNumber,
        has_told: bool,
    ) -> Result<Message, Refusal>
        ensures value { (us : List ℕ) → has_told ≡ all_told us (part_of self.old) → result ≡ replying from census.0 number.0 us (part_of self.old) }
        ensures after { part_of self.new ≡ replied census.0 number.0 (part_of self.old) }
    {
        self.of_census(census)?;
        let message = Message::Reply {
            census,
            number,
            from,
            calm: self.says(number, has_told).is_calm(),
            tally: self.tally,
        };
        self.poll(number);
        Ok(message)
    }
}
