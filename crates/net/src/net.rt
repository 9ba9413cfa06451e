ghost use Rattle.std.specs.Prelude.{◌≡◌, ◌<◌, ◌≤◌, true, length};
ghost use Rattle.store.specs.Sending.{contents};
ghost use Rattle.play.specs.Apart.{PartOf};
ghost use Rattle.net.specs.Worlds.{world_of};

use std::alloc::Global;
use store::Store;

/// The houses, and the bytes of the messages that were sent, in the order of sending: all of them, but those for which there was no memory.
/// It is faithful as long as nothing came to a house but what was sent, or what the house refused.
#[derive(Drop)]
pub struct Net {
    pub(crate) heap: Global,
    pub(crate) houses: Vec<Store>,
    pub(crate) sent: Vec<Vec<u8>>,
    pub(crate) faithful: bool,
    ghost some: { 0 < length houses.items },
    ghost few: { length houses.items ≤ 16 },
    ghost reached: { (faithful ≡ true → ∥ PartOf (length houses.items) (world_of houses.items (contents sent)) ∥₁) },
}
