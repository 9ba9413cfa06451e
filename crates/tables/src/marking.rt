ghost use Rattle.std.specs.Prelude.{◌≡◌, ℕ, ◌≤◌, true, false, ◌++◌, length, nat_lt, slice_index_or};
ghost use Rattle.tables.specs.Model.{rising};
ghost use Rattle.tables.specs.Marks.{count, noted, noted_all, passed, field_lists, Marked};
ghost use Rattle.tables.specs.Shown.{numbers, names_in};

use crate::object::Object;
use crate::place::find;
use wire::Name;

// The marks of a table's objects, by their places.
#[derive(Drop)]
struct Marking<'a> {
    objects: &'a [Object],
    marks: &'a mut [bool],
    ghost ordered: { rising (names_in objects.now) ≡ true },
    ghost room: { length objects.now ≤ length marks.now },
}

// What the methods keep relates two states, so no ghost field can say it.
impl Marking<'_> {
    // Marks the object named `p`; says whether it had no mark.
    fn note(&mut self, p: Name) -> bool
        ensures kept { self.new.objects ≡ self.old.objects }
        ensures same_reference { self.new.marks.ghost_name ≡ self.old.marks.ghost_name }
        ensures after { self.new.marks.now ≡ noted p.0 (names_in self.old.objects.now) self.old.marks.now }
        ensures added { result ≡ nat_lt (count self.old.marks.now) (count self.new.marks.now) }
    {
        let Some(at) = find(self.objects, p) else {
            return false;
        };
        if self.marks[at] {
            return false;
        }
        self.marks[at] = true;
        true
    }

    // Marks the objects that are named; says whether one had no mark.
    fn spread(&mut self, names: &[Name]) -> bool
        ensures kept { self.new.objects ≡ self.old.objects }
        ensures same_reference { self.new.marks.ghost_name ≡ self.old.marks.ghost_name }
        ensures after { self.new.marks.now ≡ noted_all (numbers names.now) (names_in self.old.objects.now) self.old.marks.now }
        ensures added { result ≡ nat_lt (count self.old.marks.now) (count self.new.marks.now) }
    {
        let mut added = false;
        for p in names {
            added |= self.note(*p);
        }
        added
    }

    // One pass over all objects and fields: what marked objects refer to is marked; says whether one had no mark.
    fn pass(&mut self) -> bool
        ensures kept { self.new.objects ≡ self.old.objects }
        ensures same_reference { self.new.marks.ghost_name ≡ self.old.marks.ghost_name }
        ensures after { self.new.marks.now ≡ passed (names_in self.old.objects.now) (field_lists self.old.objects.now) 0 (length self.old.objects.now) self.old.marks.now }
        ensures added { result ≡ nat_lt (count self.old.marks.now) (count self.new.marks.now) }
    {
        let mut added = false;
        let objects = self.objects;
        for (i, x) in objects.iter().enumerate() {
            added |= self.marks[i] && self.spread(x.fields());
        }
        added
    }
}

// Marks exactly the objects that are met from the roots and the listed names, by passes until one adds nothing.
pub fn mark(objects: &[Object], roots: &[Name], listed: &[Name], marks: &mut [bool])
    requires ordered { rising (names_in objects.now) ≡ true }
    requires room { length objects.now ≤ length marks.old }
    requires clear { (k : ℕ) → slice_index_or marks.old k false ≡ false }
    ensures { Marked objects.now (numbers roots.now ++ numbers listed.now) marks.new }
{
    let mut marking = Marking { objects, marks };
    marking.spread(roots);
    marking.spread(listed);
    'passes: loop {
        if !marking.pass() {
            break 'passes;
        }
    }
}
