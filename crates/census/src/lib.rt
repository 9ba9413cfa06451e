// A house's part in a census: what it has told of the objects of others, and what it says when it is asked.

#![tactic(auto)]

mod answers;
mod mood;
mod rounds;
mod standing;
mod steps;
mod telling;
mod tellings;

pub use mood::Mood;
pub use rounds::{ASKER, is_asker};
pub use standing::Standing;
pub use steps::Marked;
pub use telling::{Telling, Told};
