// What programs in other languages call, from a static library.

#![tactic(auto)]

mod reading;
mod said;

pub use reading::exports_read;
pub use said::Said;
