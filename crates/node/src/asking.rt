ghost use Rattle.std.specs.Prelude.{◌≡◌};
ghost use Rattle.census.specs.Moods.{is_calm};
ghost use Rattle.rules.specs.Step.{noting, round};
ghost use Rattle.node.specs.Shown.{house_of, never, Does, Steps};

use crate::head::Head;
use crate::lent::Tables;
use crate::sent::{Answer, Sent};
use census::{Mood, is_asker};
use lines::Lines;
use objects::{Fault, Objects};
use rounds::Noted;
use wire::{Census, House, Message, Refusal, RoundNumber, Tally};

impl Head {
    // The house that asks begins the next round, or asks the present one again.
    pub fn round(mut self, objects: &Objects, list: &Lines) -> (Head, Answer)
        ensures { Steps result round (house_of self objects.now list.now) objects.now list.now }
    {
        if !is_asker(objects.home()) {
            return (self, Err(Refusal::WrongHouse.into()));
        }
        let census = self.standing.census();
        let (desk, number) = self.desk.begin(objects.houses());
        self.desk = desk;
        let round = number.map(|number| Sent::One(Message::Round { census, number }));
        (self, round.map_err(Fault::from))
    }

    // The answer of house `from` to a round.
    pub(crate) fn note(
        mut self,
        tables: &Tables,
        census: Census,
        number: RoundNumber,
        from: House,
        mood: Mood,
        tally: Tally,
    ) -> (Head, Answer)
        ensures { Does never (noting census.0 number.0 from.0 (is_calm mood) tally.0) self tables.now result tables.now }
    {
        if !is_asker(tables.list.home) {
            return (self, Err(Refusal::Misdelivered.into()));
        }
        if census != self.standing.census() {
            return (self, Err(Refusal::OtherCensus.into()));
        }
        let (desk, noted) = self
            .desk
            .note(tables.list.houses, number, from, mood, tally);
        self.desk = desk;
        let sent = match noted {
            Noted::Ignored | Noted::Kept => Sent::Nothing,
            Noted::Completes => Sent::One(Message::Complete { census }),
        };
        (self, Ok(sent))
    }
}
