use crate::tellings::Tellings;
use wire::{Census, Tally};

// How a house stands to round 1, the first time in a census that every house is asked whether it is calm.
#[derive(Clone, Copy, Debug, PartialEq, Eq)]
pub enum FirstRound {
    // not answered yet
    Ahead,
    // answered: the house is polled
    Polled,
    // answered, and a reference was taken since
    Stirred,
}

// What a house knows of the census it is in. All of it begins anew when the house joins another.
#[derive(Drop)]
pub struct Standing {
    pub(crate) census: Census,
    pub(crate) told: Tellings,
    // how many lines got this census's number because of a telling
    pub(crate) tally: Tally,
    pub(crate) first: FirstRound,
}
