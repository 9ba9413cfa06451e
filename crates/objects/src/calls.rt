ghost use Rattle.std.specs.Prelude.{◌≡◌, ◌<◌, IfOk, OnOk, vec_len};
ghost use Rattle.objects.specs.Laws.{Frees};
ghost use Rattle.objects.specs.Calls.{heap_of, held_answer, link_answer, after_link, unlink_answer, after_unlink, load_answer, after_load, drop_answer, after_drop, keep_answer, after_keep, take_answer, after_take};

use crate::store::Objects;
use tables::{find, first};
use wire::{Name, Refusal};

impl Objects {
    // The place of `o`, which must be a root that lives here, where `p` can be a name too.
    fn held(&self, o: Name, p: Name) -> Result<usize, Refusal>
        ensures value { result ≡ held_answer o.0 p.0 (heap_of self.now) }
        ensures within { IfOk result (λ at. at < vec_len self.now.objects) }
    {
        if !o.is_well_formed(self.houses) || !p.is_well_formed(self.houses) {
            return Err(Refusal::Malformed);
        }
        if !self.is_root(o) {
            return Err(Refusal::NotRoot);
        }
        find(&self.objects, o).ok_or(Refusal::NotRoot)
    }

    // Puts `p` at the end of the fields of `o`.
    pub fn link(&mut self, o: Name, p: Name) -> Result<(), Refusal>
        ensures value { result ≡ link_answer o.0 p.0 (heap_of self.old) }
        ensures after { heap_of self.new ≡ after_link o.0 p.0 (heap_of self.old) }
    {
        let at = self.held(o, p)?;
        if !self.is_root(p) {
            return Err(Refusal::NotRoot);
        }
        if self.objects[at].is_full() {
            return Err(Refusal::NoRoom);
        }
        self.objects[at].link(p);
        Ok(())
    }

    // Takes the first field `p` of `o` away.
    pub fn unlink(&mut self, o: Name, p: Name) -> Result<(), Refusal>
        ensures value { result ≡ unlink_answer o.0 p.0 (heap_of self.old) }
        ensures after { heap_of self.new ≡ after_unlink o.0 p.0 (heap_of self.old) }
    {
        let at = self.held(o, p)?;
        let place = first(self.objects[at].fields(), p).ok_or(Refusal::NoField)?;
        self.objects[at].unlink(place);
        Ok(())
    }

    // Makes a field `p` of `o` a root.
    pub fn load(&mut self, o: Name, p: Name) -> Result<(), Refusal>
        ensures value { result ≡ load_answer o.0 p.0 (heap_of self.old) }
        ensures after { heap_of self.new ≡ after_load o.0 p.0 (heap_of self.old) }
    {
        let at = self.held(o, p)?;
        first(self.objects[at].fields(), p).ok_or(Refusal::NoField)?;
        self.add_root(p)
    }

    // Makes `o` a root no longer: the call `drop`.
    pub fn release(&mut self, o: Name) -> Result<(), Refusal>
        ensures value { result ≡ drop_answer o.0 (heap_of self.old) }
        ensures after { heap_of self.new ≡ after_drop o.0 (heap_of self.old) }
        ensures frees { OnOk result (Frees o.0 (heap_of self.new)) }
    {
        if !o.is_well_formed(self.houses) {
            return Err(Refusal::Malformed);
        }
        let at = find(&self.roots, o).ok_or(Refusal::NotRoot)?;
        self.roots.remove(at);
        Ok(())
    }

    // Makes a name a root that is known here already.
    pub fn root(&mut self, o: Name) -> Result<(), Refusal>
        ensures value { result ≡ keep_answer o.0 (heap_of self.old) }
        ensures after { heap_of self.new ≡ after_keep o.0 (heap_of self.old) }
    {
        if !o.is_well_formed(self.houses) {
            return Err(Refusal::Malformed);
        }
        self.add_root(o)
    }

    // Makes a name a root that was handed over; there must be room, also where it is one.
    pub fn take(&mut self, o: Name) -> Result<(), Refusal>
        ensures value { result ≡ take_answer o.0 (heap_of self.old) }
        ensures after { heap_of self.new ≡ after_take o.0 (heap_of self.old) }
    {
        if !o.is_well_formed(self.houses) {
            return Err(Refusal::Malformed);
        }
        if !self.has_room() {
            return Err(Refusal::NoRoom);
        }
        self.add_root(o)
    }
}
