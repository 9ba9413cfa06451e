// The rounds of the house that asks.

#![tactic(auto)]

mod answers;
mod desk;
mod rounds;
mod said;

pub use desk::{Desk, Noted};
