ghost use Rattle.std.specs.Prelude.{◌≡◌, MatchResult};
ghost use Rattle.objects.specs.Calls.{heap_of, make_answer, after_make, new_heap, Unmade};

use crate::fault::Fault;
use crate::store::Objects;
use std::alloc::Global;
use tables::{Object, enter};
use wire::{House, Name, Refusal};

impl Objects {
    // The tables of a house, empty: `home` is its number among `houses` houses.
    pub fn new(heap: Global, home: House, houses: u8) -> Result<Objects, Fault>
        ensures { MatchResult result (λ t. heap_of t ≡ new_heap home.0 houses) (λ e. Unmade home.0 houses e) }
    {
        // by number: how many houses there are is no house
        if houses > 16 || home.0 >= houses {
            return Err(Refusal::Malformed.into());
        }
        Ok(Objects {
            home,
            houses,
            made: 0,
            objects: Vec::with_capacity(heap, 1024)?,
            roots: Vec::with_capacity(heap, 256)?,
        })
    }

    // Makes an object with this number. It has no fields, and is a root.
    pub fn make(&mut self, number: u64) -> Result<Name, Refusal>
        ensures value { result ≡ make_answer number (heap_of self.old) }
        ensures after { heap_of self.new ≡ after_make number (heap_of self.old) }
    {
        if number == 0 {
            return Err(Refusal::Malformed);
        }
        if self.objects.len() >= 1024 || !self.has_room() {
            return Err(Refusal::NoRoom);
        }
        if number <= u64::from(self.made) {
            return Err(Refusal::OutOfNumbers);
        }
        let name = Name::new(number, self.home)?;
        self.made = name.number();
        self.objects.push_reserved(Object::new(name));
        // there is room, so this does not fail
        let _ = enter(&mut self.roots, name);
        Ok(name)
    }
}
