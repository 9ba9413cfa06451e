ghost use Rattle.std.specs.Prelude.{◌≡◌, ◌<◌, [], ◌∷◌, map, length, is_ok, slice_index_or};
ghost use Rattle.wire.specs.Format.{decode};
ghost use Rattle.store.specs.Sending.{items_in};
ghost use Rattle.play.specs.Play.{calls, delivers};
ghost use Rattle.play.specs.Settle.{below, delivery, deliveries, goes_to, pump, calling, each};
ghost use Rattle.net.specs.Nets.{count, world};
ghost use Rattle.net.specs.Settling.{Along, receivers};

use crate::net::Net;
use crate::played::with_memory;
use node::Recipient;
use std::alloc::AllocError;
use wire::{Call, House};

impl Net {
    // How many messages were sent.
    fn message_count(&self) -> usize
        ensures { result ≡ length (world self.now).sent }
    {
        self.sent.len()
    }

    fn calls(&mut self, house: House, call: Call) -> Result<(), AllocError>
        ensures { Along (is_ok result) (λ n w. calls house.0 call ∷ []) self.old self.new }
    {
        with_memory(self.call(house, call))
    }

    fn delivers(&mut self, house: House, message: usize) -> Result<(), AllocError>
        ensures { Along (is_ok result) (λ n w. delivers house.0 message ∷ []) self.old self.new }
    {
        with_memory(self.deliver(house, message))
    }

    // A message comes to each house in order.
    fn deliver_each(&mut self, message: usize) -> Result<(), AllocError>
        ensures { Along (is_ok result) (λ n w. map (delivery message) (below n)) self.old self.new }
    {
        for to in 0..self.count() {
            self.delivers(House(to), message)?;
        }
        Ok(())
    }

    // A message comes to whom it is for.
    fn deliver_message(&mut self, message: usize) -> Result<(), AllocError>
        ensures { Along (is_ok result) (λ n w. deliveries n message w) self.old self.new }
    {
        match self.recipient(message) {
            None => Ok(()),
            Some(Recipient::One(house)) => self.delivers(house, message),
            Some(Recipient::Every) => self.deliver_each(message),
        }
    }

    // Every message from number `from` on comes to whom it is for, and those that are sent then, so many at most.
    fn pump(&mut self, from: usize, most: u128) -> Result<(), AllocError>
        ensures { Along (is_ok result) (λ n w. pump most n from w) self.old self.new }
    {
        let mut next = from;
        let mut left = most;
        while left > 0 && next < self.message_count() {
            self.deliver_message(next)?;
            next += 1;
            left -= 1;
        }
        Ok(())
    }

    // A call, and all that it sets off: a telling is answered once, a round by each house, and then there is one message to all at most.
    pub(crate) fn calling(&mut self, house: House, call: Call) -> Result<(), AllocError>
        ensures { Along (is_ok result) (λ n w. calling n house.0 call w) self.old self.new }
    {
        let before = self.message_count();
        self.calls(house, call)?;
        // messages only become more; and the sum is held to no bound of a usize
        let new = self.message_count().saturating_sub(before) as u128;
        let most = 2 * new + u128::from(self.count()) + 2;
        self.pump(before, most)
    }

    // The same call at each house in order, and all that it sets off.
    pub(crate) fn calling_each(&mut self, call: Call) -> Result<(), AllocError>
        ensures { Along (is_ok result) (λ n w. each n (λ i v. calling n i call v) n w) self.old self.new }
    {
        for at in 0..self.count() {
            self.calling(House(at), call)?;
        }
        Ok(())
    }
}
