ghost use Rattle.std.specs.Prelude.{◌≡◌, true, ◌++◌};
ghost use Rattle.tables.specs.Marks.{Marked};
ghost use Rattle.tables.specs.Model.{is_in, names, present, rising};
ghost use Rattle.tables.specs.Shown.{numbers, objects_of};
ghost use Rattle.objects.specs.Laws.{Single};
ghost use Rattle.objects.specs.Calls.{heap_of};

use crate::store::Objects;
use tables::{Object, find, mark};
use wire::{House, Name};

impl Objects {
    // The house whose objects these are.
    pub fn home(&self) -> House
        ensures { result.0 ≡ (heap_of self.now).home }
    {
        self.home
    }

    // How many houses there are.
    pub fn houses(&self) -> u8
        ensures { result ≡ (heap_of self.now).houses }
    {
        self.houses
    }

    pub fn is_root(&self, o: Name) -> bool
        ensures { result ≡ is_in o.0 (heap_of self.now).roots }
    {
        find(&self.roots, o).is_some()
    }

    pub fn is_present(&self, o: Name) -> bool
        ensures { result ≡ present o.0 (heap_of self.now).objects }
    {
        find(&self.objects, o).is_some()
    }

    // The roots, rising.
    pub fn roots(&self) -> &[Name]
        ensures value { numbers result.now ≡ (heap_of self.now).roots }
        ensures rises { rising (numbers result.now) ≡ true }
    {
        &self.roots
    }

    // The objects, in rising order of their names.
    pub fn objects(&self) -> &[Object]
        ensures value { objects_of result.now ≡ (heap_of self.now).objects }
        ensures rises { rising (names (objects_of result.now)) ≡ true }
        ensures single { Single (heap_of self.now) }
    {
        &self.objects
    }

    // Marks on the objects that are met from the roots and the given names.
    pub(crate) fn met(&self, from: &[Name]) -> [bool; 1024]
        ensures { Marked self.now.objects.items ((heap_of self.now).roots ++ numbers from.now) result }
    {
        let mut marks = [false; 1024];
        mark(&self.objects, &self.roots, from, &mut marks);
        marks
    }
}
