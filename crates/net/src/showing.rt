ghost use Rattle.std.specs.Prelude.{◌≡◌, [], map, length, slice_index_or};
ghost use Rattle.wire.specs.Format.{decode};
ghost use Rattle.store.specs.Sending.{items_in};
ghost use Rattle.play.specs.Settle.{goes_to};
ghost use Rattle.net.specs.Worlds.{houses_of};
ghost use Rattle.net.specs.Nets.{count, world, faithful, Promised};
ghost use Rattle.net.specs.Settling.{receivers};

use crate::net::Net;
use node::Recipient;
use store::Store;

impl Net {
    // How many houses there are.
    pub fn count(&self) -> u8
        ensures { result ≡ count self.now }
    {
        // at most sixteen, so it fits
        self.houses.len() as u8
    }

    // The houses, in their order.
    pub fn houses(&self) -> &[Store]
        ensures houses { houses_of result.now ≡ (world self.now).house }
        ensures count { length result.now ≡ count self.now }
    {
        &self.houses
    }

    // The bytes of every message that was sent, in the order of sending.
    pub fn messages(&self) -> &[Vec<u8>]
        ensures { map items_in result.now ≡ (world self.now).sent }
    {
        &self.sent
    }

    // Whom message number `message` is for, if there is such a message.
    pub fn recipient(&self, message: usize) -> Option<Recipient>
        ensures { receivers (count self.now) result ≡ goes_to (count self.now) (decode (count self.now) (slice_index_or (world self.now).sent message [])) }
    {
        let read = wire::read(self.sent.get(message)?, self.count()).ok()?;
        Some(node::goes_to(read.message))
    }

    /// Whether the promise holds: nothing came to a house but what was sent, or what the house refused.
    pub fn is_faithful(&self) -> bool
        ensures value { result ≡ faithful self.now }
        ensures promise { Promised self.now }
    {
        self.faithful
    }
}
