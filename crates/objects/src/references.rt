ghost use Rattle.std.specs.Prelude.{◌≡◌, ◌+◌, ◌≤◌, true, [], ◌++◌, map, length, is_ok, IfOk, vec_len};
ghost use Rattle.std.specs.List.{list_all};
ghost use Rattle.objects.specs.Calls.{heap_of};
ghost use Rattle.tables.specs.Gathered.{Found};
ghost use Rattle.objects.specs.Executed.{names_in_use};
ghost use Rattle.objects.specs.Laws.{Sole, Well};
ghost use Rattle.tables.specs.Model.{is_in, rising};
ghost use Rattle.tables.specs.Met.{Lists, FarInUse, Refers};
ghost use Rattle.tables.specs.Shown.{numbers};

use crate::store::Objects;
use std::alloc::{AllocError, Global};
use tables::{Named, Which, all_fields_stand, all_stand, gather, gather_fields};
use wire::{House, Name};

// The most references that a house has: 256 roots, and eight fields of each of 1,024 objects.
pub const MOST_REFERENCES: usize = 8448;

impl Objects {
    // The names that are looked for among the roots, the given names and the fields of marked objects, each once, rising.
    fn references(
        &self,
        heap: Global,
        from: &[Name],
        marks: &[bool],
        which: Which,
    ) -> Result<Vec<Name>, AllocError>
        requires { 1024 ≤ length marks.now }
        ensures value { IfOk result (λ v. Found which (heap_of self.now) (numbers from.now) marks.now (numbers v.items)) }
        ensures few { IfOk result (λ v. vec_len v ≤ length from.now + MOST_REFERENCES) }
        ensures none { Found which (heap_of self.now) (numbers from.now) marks.now [] → is_ok result ≡ true }
    {
        let mut out = Vec::new(heap);
        gather(&mut out, &self.roots, which)?;
        gather(&mut out, from, which)?;
        gather_fields(&mut out, &self.objects, marks, which)?;
        Ok(out)
    }

    // The references to other houses' objects that are met from the roots and the given names, each once, rising. Where there is none no memory is asked for.
    pub fn in_use(&self, heap: Global, from: &[Name]) -> Result<Vec<Name>, AllocError>
        ensures names { IfOk result (λ v. Lists (numbers v.items) (FarInUse (heap_of self.now) (numbers from.now))) }
        ensures well { IfOk result (λ v. Well (heap_of self.now) (numbers from.now) → Well (heap_of self.now) (numbers v.items)) }
        ensures sole { IfOk result (λ v. Sole (numbers v.items) (FarInUse (heap_of self.now) (numbers from.now))) }
        ensures none { Lists [] (FarInUse (heap_of self.now) (numbers from.now)) → is_ok result ≡ true }
    {
        self.references(heap, from, &self.met(from), Which::NotOf(self.home))
    }

    // The names of a house's objects that are roots or in fields here, each once, rising. Where there is none no memory is asked for.
    pub fn references_of(&self, heap: Global, house: House) -> Result<Vec<Name>, AllocError>
        ensures names { IfOk result (λ v. Lists (numbers v.items) (Refers (heap_of self.now) house.0)) }
        ensures well { IfOk result (λ v. Well (heap_of self.now) (numbers v.items)) }
        ensures sole { IfOk result (λ v. Sole (numbers v.items) (Refers (heap_of self.now) house.0)) }
        ensures few { IfOk result (λ v. vec_len v ≤ MOST_REFERENCES) }
        ensures none { Lists [] (Refers (heap_of self.now) house.0) → is_ok result ≡ true }
    {
        self.references(heap, &[], &[true; 1024], Which::Of(house))
    }

    /// Whether the references to other houses' objects that are met from the roots and the given names all stand in a rising table:
    /// one search of the table for each root, name and field. No list is made of them, so no memory is asked for.
    pub fn uses_only<X: Named>(&self, from: &[Name], table: &[X]) -> bool
        requires { rising (map X.called table.now) ≡ true }
        ensures { result ≡ list_all (λ o. is_in o (map X.called table.now)) (names_in_use (numbers from.now) (heap_of self.now)) }
    {
        let far = Which::NotOf(self.home);
        let marks = self.met(from);
        if !all_stand(table, &self.roots, far) {
            return false;
        }
        if !all_stand(table, from, far) {
            return false;
        }
        all_fields_stand(table, &self.objects, &marks, far)
    }
}
