// The objects and roots of one house: what is met from the roots, and the freeing of what is not.

#![tactic(auto)]

mod calls;
mod changes;
mod collecting;
mod fault;
mod lookups;
mod making;
mod references;
mod store;

pub use fault::Fault;
pub use references::MOST_REFERENCES;
pub use store::Objects;
pub use tables::Object;
