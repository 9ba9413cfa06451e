// Tables in rising order of names: places in them, marks on the objects that are met, and names gathered from them.

#![tactic(auto)]

mod closing;
mod fields;
mod gathering;
mod marking;
mod object;
mod place;
mod which;

pub use closing::close_up;
pub use gathering::{all_fields_stand, all_stand, gather, gather_fields};
pub use marking::mark;
pub use object::Object;
pub use place::{Named, enter, find, first, place as place_of};
pub use which::Which;
