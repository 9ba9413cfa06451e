// Names, calls, messages and refusals, and messages as bytes.

#![tactic(auto)]

mod call;
mod message;
mod names;
mod reading;
mod refusal;
mod writing;

pub use call::Call;
pub use message::{Message, Part};
pub use names::{Census, House, Name, RoundNumber, Stamp, Tally};
pub use reading::{Received, read};
pub use refusal::Refusal;
pub use writing::write;
