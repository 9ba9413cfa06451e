ghost use Rattle.std.specs.Prelude.{◌≡◌, ◌+◌, ◌*◌, is_ok};
ghost use Rattle.play.specs.Settle.{word_to, words, each, joins, above, tallies, passes, completing};
ghost use Rattle.net.specs.Nets.{count, world, Promised};
ghost use Rattle.net.specs.Settling.{Along, Ends};

use crate::net::Net;
use crate::settling_houses::{above, tallies};
use census::ASKER;
use objects::Fault;
use std::alloc::AllocError;
use wire::{Call, House, Refusal};

// What the collector does by itself until nothing is left to free. Each part breaks off only for want of memory.
impl Net {
    // A word of house `from` to house `to`: to itself it sends none.
    fn word(&mut self, from: u8, to: u8) -> Result<(), AllocError>
        ensures { Along (is_ok result) (λ n w. word_to n from to w) self.old self.new }
    {
        if from == to {
            return Ok(());
        }
        self.calling(House(from), Call::Word { to: House(to) })
    }

    // A word of one house to each other.
    fn words_of(&mut self, from: u8) -> Result<(), AllocError>
        ensures { Along (is_ok result) (λ n w. each n (λ j u. word_to n from j u) n w) self.old self.new }
    {
        for to in 0..self.count() {
            self.word(from, to)?;
        }
        Ok(())
    }

    // Each house tells each other what it holds of it.
    fn words(&mut self) -> Result<(), AllocError>
        ensures { Along (is_ok result) (λ n w. words n w) self.old self.new }
    {
        for from in 0..self.count() {
            self.words_of(from)?;
        }
        Ok(())
    }

    // All houses join a census that is new to all.
    fn join_all(&mut self) -> Result<(), AllocError>
        ensures { Along (is_ok result) (λ n w. joins n (above n w) w) self.old self.new }
    {
        let census = above(&self.houses);
        self.calling_each(Call::Join { census })
    }

    // How many lines were newly marked in all houses.
    fn marked(&self) -> u128
        ensures { result ≡ tallies (count self.now) (world self.now) }
    {
        tallies(&self.houses)
    }

    // Each house tells what it uses, until nothing is newly marked.
    fn passes(&mut self) -> Result<(), AllocError>
        ensures { Along (is_ok result) (λ n w. passes (2048 * n + 1) n w) self.old self.new }
    {
        // a list has 2,048 lines at most, and each pass but the last marks one
        for _ in 0..2048 * u32::from(self.count()) + 1 {
            let before = self.marked();
            self.calling_each(Call::Tell)?;
            if self.marked() == before {
                break;
            }
        }
        Ok(())
    }

    // The census is made complete: what is used is told, and two rounds find it so.
    fn complete(&mut self) -> Result<(), AllocError>
        ensures { Along (is_ok result) (λ n w. completing n w) self.old self.new }
    {
        self.passes()?;
        self.calling(ASKER, Call::Round)?;
        self.calling(ASKER, Call::Round)
    }

    // All that does not matter is freed: what is left is exactly what matters.
    pub fn settle(&mut self) -> Result<(), Fault>
        ensures ends { Ends result self.old self.new }
        ensures count { count self.new ≡ count self.old }
        ensures promise { Promised self.new }
    {
        if above(&self.houses) > u64::from(u32::MAX) {
            return Err(Refusal::OutOfNumbers.into());
        }
        self.words()?;
        self.join_all()?;
        self.complete()?;
        self.calling_each(Call::Collect)?;
        Ok(())
    }
}
