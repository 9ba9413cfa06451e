// A house that owns its tables, and lends them for each call.

#![tactic(auto)]

mod event;
mod sending;
mod showing;
mod steps;
mod table;

pub use event::Event;
pub use sending::messages;
pub use table::Store;
