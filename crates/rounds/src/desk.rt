use crate::said::Said;
use wire::RoundNumber;

// The answers to a round, by house.
#[derive(Clone, Copy)]
pub struct Answers {
    pub(crate) slots: [Option<Said>; 16],
}

// The rounds of a census at the house that asks: the present one, 0 while there is none, and the answers to it and to the one before.
#[derive(Clone, Copy)]
pub struct Desk {
    pub(crate) round: RoundNumber,
    pub(crate) answers: Answers,
    pub(crate) before: Answers,
}

// What came of an answer to a round.
#[derive(Clone, Copy, Debug, PartialEq, Eq)]
pub enum Noted {
    // it is not the first of its house to the present round
    Ignored,
    // it is kept, and the census goes on
    Kept,
    // it is kept, and with it two rounds agree
    Completes,
}
