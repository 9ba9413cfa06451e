ghost use Rattle.std.specs.Prelude.{◌≡◌, ◌+◌, ◌≤◌, true, [], ◌∷◌, ◌++◌, length, is_ok, IfOk, OnOk, if◌then◌else◌, vec_len, vec_capacity};
ghost use Rattle.tables.specs.Model.{is_in, below, rising};
ghost use Rattle.tables.specs.Shown.{numbers};
ghost use Rattle.census.specs.Model.{names, settled, untold, unanswered, entered, entered_all};
ghost use Rattle.census.specs.Shown.{told_of, names_in};

use crate::telling::{Telling, Told};
use std::alloc::{AllocError, Global};
use tables::{find, place_of};
use wire::Name;

// What was told in this census, rising. No map: where memory is wanting a telling changes nothing, so that its room is taken
// ahead, and none can be taken ahead in a `BTreeMap`.
#[derive(Drop)]
pub struct Tellings {
    pub(crate) entries: Vec<Told>,
    ghost ordered: { rising (names_in entries.items) ≡ true },
}

impl Tellings {
    pub(crate) fn new(heap: Global) -> Tellings
        ensures { told_of result.entries.items ≡ [] }
    {
        Tellings {
            entries: Vec::new(heap),
        }
    }

    // Nothing is told any more.
    pub(crate) fn clear(&mut self)
        ensures { told_of self.new.entries.items ≡ [] }
    {
        self.entries.clear();
    }

    // What was told, rising.
    pub(crate) fn entries(&self) -> &[Told]
        ensures value { result.now ≡ self.now.entries.items }
        ensures rises { rising (names_in result.now) ≡ true }
    {
        &self.entries
    }

    // Whether `o` is told.
    fn has(&self, o: Name) -> bool
        ensures { result ≡ is_in o.0 (names (told_of self.now.entries.items)) }
    {
        find(&self.entries, o).is_some()
    }

    // The telling of `o`, if there is one, is answered.
    pub(crate) fn settle(&mut self, o: Name)
        ensures { told_of self.new.entries.items ≡ settled o.0 (told_of self.old.entries.items) }
    {
        if let Some(at) = find(&self.entries, o) {
            self.entries[at].state = Telling::Answered;
        }
    }

    // How many of these names are not told.
    fn count_untold(&self, in_use: &[Name]) -> usize
        ensures { result ≡ length (untold (numbers in_use.now) (told_of self.now.entries.items)) }
    {
        in_use.iter().filter(|o| !self.has(**o)).count()
    }

    // How many of the told are not answered.
    pub(crate) fn count_unanswered(&self) -> usize
        ensures value { result ≡ length (unanswered (told_of self.now.entries.items)) }
        ensures bound { result ≤ vec_len self.now.entries }
    {
        self.entries
            .iter()
            .filter(|told| told.state == Telling::Awaited)
            .count()
    }

    // All in use is told, and all that is not answered then is listed, rising. Where memory is wanting nothing changes, and none is asked for where nothing is to be told or listed.
    pub(crate) fn tell(&mut self, in_use: &[Name]) -> Result<Vec<Name>, AllocError>
        ensures due { IfOk result (λ v. numbers v.items ≡ unanswered (entered_all (numbers in_use.now) (told_of self.old.entries.items))) }
        ensures after { told_of self.new.entries.items ≡ (if is_ok result then entered_all (numbers in_use.now) (told_of self.old.entries.items) else told_of self.old.entries.items) }
        ensures quiet { length (untold (numbers in_use.now) (told_of self.old.entries.items)) + length (unanswered (told_of self.old.entries.items)) ≡ 0 → is_ok result ≡ true }
    {
        let mut due = self.room(in_use)?;
        self.enter_all(in_use);
        self.list_unanswered(&mut due);
        Ok(due)
    }

    // Room to tell all these, and an empty list with room for all that is unanswered then.
    fn room(&mut self, in_use: &[Name]) -> Result<Vec<Name>, AllocError>
        ensures same { self.new.entries.items ≡ self.old.entries.items }
        ensures told { OnOk result (vec_len self.new.entries + length (untold (numbers in_use.now) (told_of self.old.entries.items)) ≤ vec_capacity self.new.entries) }
        ensures empty { IfOk result (λ v. v.items ≡ []) }
        ensures due { IfOk result (λ v. length (unanswered (told_of self.old.entries.items)) + length (untold (numbers in_use.now) (told_of self.old.entries.items)) ≤ vec_capacity v) }
        ensures quiet { length (untold (numbers in_use.now) (told_of self.old.entries.items)) + length (unanswered (told_of self.old.entries.items)) ≡ 0 → is_ok result ≡ true }
    {
        let more = self.count_untold(in_use);
        self.entries.reserve(more)?;
        let unanswered = self.count_unanswered();
        Vec::with_capacity(*self.entries.allocator(), unanswered + more)
    }

    // All these are told. There is room for them.
    fn enter_all(&mut self, in_use: &[Name])
        requires { vec_len self.old.entries + length (untold (numbers in_use.now) (told_of self.old.entries.items)) ≤ vec_capacity self.old.entries }
        ensures after { told_of self.new.entries.items ≡ entered_all (numbers in_use.now) (told_of self.old.entries.items) }
        ensures few { length (unanswered (told_of self.new.entries.items)) ≤ length (unanswered (told_of self.old.entries.items)) + length (untold (numbers in_use.now) (told_of self.old.entries.items)) }
    {
        for o in in_use {
            self.enter(*o);
        }
    }

    // Whether `o` is told, if `at` is the place that it has or would have.
    fn stands(&self, at: usize, o: Name) -> bool
        requires { at ≡ below o.0 (names_in self.now.entries.items) }
        ensures { result ≡ is_in o.0 (names (told_of self.now.entries.items)) }
    {
        match self.entries.get(at) {
            Some(told) => told.object == o,
            None => false,
        }
    }

    // `o` is told, unless it was. There is room for it.
    fn enter(&mut self, o: Name)
        requires { vec_len self.old.entries + length (untold (o.0 ∷ []) (told_of self.old.entries.items)) ≤ vec_capacity self.old.entries }
        ensures after { told_of self.new.entries.items ≡ entered o.0 (told_of self.old.entries.items) }
        ensures room { vec_capacity self.old.entries ≤ vec_capacity self.new.entries }
    {
        let at = place_of(&self.entries, o);
        if self.stands(at, o) {
            return;
        }
        let new = Told {
            object: o,
            state: Telling::Awaited,
        };
        // there is room, so this does not fail
        let _ = self.entries.insert(at, new);
    }

    // The told that are not answered go to the end of a list that has room for them.
    fn list_unanswered(&self, due: &mut Vec<Name>)
        requires { vec_len due.old + length (unanswered (told_of self.now.entries.items)) ≤ vec_capacity due.old }
        ensures { numbers due.new.items ≡ numbers due.old.items ++ unanswered (told_of self.now.entries.items) }
    {
        for told in &self.entries {
            if told.state == Telling::Awaited {
                due.push_reserved(told.object);
            }
        }
    }
}
