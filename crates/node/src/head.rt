use census::Standing;
use lines::Stamps;
use rounds::Desk;
use std::alloc::Global;

// What a house has besides its tables: it is taken by value and handed back, and the tables are lent beside it.
#[derive(Drop)]
pub struct Head {
    pub(crate) heap: Global,
    pub(crate) stamps: Stamps,
    pub(crate) standing: Standing,
    // the rounds, if this is the house that asks them
    pub(crate) desk: Desk,
}
