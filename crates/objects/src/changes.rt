ghost use Rattle.std.specs.Prelude.{◌≡◌, true, vec_len, nat_lt};
ghost use Rattle.wire.specs.Names.{well_formed};
ghost use Rattle.objects.specs.Calls.{heap_of, root_answer, rooted, unless_refused};

use crate::store::Objects;
use tables::enter;
use wire::{Name, Refusal};

impl Objects {
    // Whether there is room for one more root.
    pub(crate) fn has_room(&self) -> bool
        ensures { result ≡ nat_lt (vec_len self.now.roots) 256 }
    {
        self.roots.len() < 256
    }

    // Makes a name a root, where it is one or there is room.
    pub(crate) fn add_root(&mut self, o: Name) -> Result<(), Refusal>
        requires { well_formed self.old.houses o ≡ true }
        ensures value { result ≡ root_answer o.0 (heap_of self.old) }
        ensures after { heap_of self.new ≡ unless_refused result (rooted o.0 (heap_of self.old)) (heap_of self.old) }
    {
        if self.is_root(o) {
            return Ok(());
        }
        if !self.has_room() {
            return Err(Refusal::NoRoom);
        }
        // there is room, so this does not fail
        let _ = enter(&mut self.roots, o);
        Ok(())
    }
}
