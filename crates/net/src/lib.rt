// Houses that hand references to each other, with all that was ever sent: the promise stands on every call.

#![tactic(auto)]

mod entries;
mod making;
mod net;
mod played;
mod sending;
mod settling;
mod settling_houses;
mod settling_steps;
mod showing;

pub use net::Net;
pub use played::{Played, Setback};
