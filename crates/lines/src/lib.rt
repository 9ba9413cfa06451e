// The reference list of a house: who holds which of its objects.

#![tactic(auto)]

mod counting;
mod entry;
mod line;
mod stamping;
mod stamps;
mod table;
mod word;

pub use line::Line;
pub use stamps::Stamps;
pub use table::Lines;
