// One house: every call and every message as one step over its objects, its list, its stamps, its part in the census and its rounds.

#![tactic(auto)]

mod asking;
mod calls;
mod collecting;
mod dispatch;
mod head;
mod lent;
mod messages;
mod receiving;
mod recipients;
mod sent;

pub use head::Head;
pub use lent::Tables;
pub use recipients::goes_to;
pub use sent::{Answer, Recipient, Sent};
