ghost use Rattle.std.specs.Prelude.{◌≡◌, Some};
ghost use Rattle.rounds.specs.Model.{agrees};
ghost use Rattle.rounds.specs.Slots.{slot};

use census::Mood;
use wire::Tally;

// What a house has answered to a round: how it is, and how many lines it has marked.
#[derive(Clone, Copy, Debug, PartialEq, Eq)]
pub struct Said {
    pub(crate) mood: Mood,
    pub(crate) tally: Tally,
}

impl Said {
    // Calm in this round and in the one before, and nothing was marked between the two answers.
    pub(crate) fn agrees(self, before: Said) -> bool
        ensures { result ≡ agrees (slot (Some self)) (slot (Some before)) }
    {
        self.mood.is_calm() && before.mood.is_calm() && self.tally == before.tally
    }
}
