ghost use Rattle.std.specs.Prelude.{◌≡◌, slice_set, Some};
ghost use Rattle.rounds.specs.Model.{unanswered, slot_of, spoke, all_spoke, agrees, all_agree};
ghost use Rattle.rounds.specs.Slots.{slot};
ghost use Rattle.rounds.specs.Shown.{slots_of};

use crate::desk::Answers;
use crate::said::Said;
use wire::House;

impl Answers {
    pub(crate) fn none() -> Answers
        ensures { slots_of result ≡ unanswered }
    {
        Answers { slots: [None; 16] }
    }

    // The answer of a house.
    pub(crate) fn of(&self, house: u8) -> Option<Said>
        ensures { slot result ≡ slot_of house (slots_of self.now) }
    {
        self.slots.get(usize::from(house)).copied().flatten()
    }

    // With the answer of one house more.
    pub(crate) fn with(mut self, house: House, answer: Said) -> Answers
        ensures { slots_of result ≡ slice_set (slots_of self) house.0 (slot (Some answer)) }
    {
        // a `get_mut` in place of the test gets no proof: what it leaves in the array has no name there
        if house.0 < 16 {
            self.slots[usize::from(house.0)] = Some(answer);
        }
        self
    }

    pub(crate) fn has_answered(&self, house: u8) -> bool
        ensures { result ≡ spoke (slot_of house (slots_of self.now)) }
    {
        self.of(house).is_some()
    }

    // Whether each of so many houses has answered.
    pub(crate) fn are_all(&self, houses: u8) -> bool
        ensures { result ≡ all_spoke houses (slots_of self.now) }
    {
        (0..houses).all(|house| self.has_answered(house))
    }

    // Whether a house was calm in this round and in the one before, with the same tally.
    fn agrees(&self, before: &Answers, house: u8) -> bool
        ensures { result ≡ agrees (slot_of house (slots_of self.now)) (slot_of house (slots_of before.now)) }
    {
        match (self.of(house), before.of(house)) {
            (Some(said), Some(earlier)) => said.agrees(earlier),
            _ => false,
        }
    }

    // Whether each of so many houses was.
    pub(crate) fn agree(&self, before: &Answers, houses: u8) -> bool
        ensures { result ≡ all_agree houses (slots_of self.now) (slots_of before.now) }
    {
        (0..houses).all(|house| self.agrees(before, house))
    }
}
