ghost use Rattle.std.specs.Prelude.{◌≡◌, true};
ghost use Rattle.wire.specs.Format.{numbers, rising};
ghost use Rattle.lines.specs.Laws.{Again, Survives};
ghost use Rattle.lines.specs.Listed.{is_in, goes, heard_of};
ghost use Rattle.lines.specs.Lists.{lines, listing, Lent};
ghost use Rattle.lines.specs.Words.{Ascending};

use crate::line::Line;
use crate::table::Lines;
use wire::{House, Name, Stamp};

impl Lines<'_> {
    // A word of house `from`, which has seen `stamp` and holds the objects of this part, four bytes each, rising as in every word that was read.
    // Its lines with a stamp at most that go, unless the object is among those, and the others close up in order.
    pub fn hear(&mut self, from: House, stamp: Stamp, objects: &[u8])
        requires { rising self.old.home.0 15 (numbers objects.now) ≡ true }
        ensures after { lines self.new ≡ heard_of from.0 (numbers objects.now) stamp.0 (lines self.old) }
        ensures again { Again from.0 (numbers objects.now) stamp.0 (lines self.new) }
        ensures survives { Survives stamp.0 (lines self.old) (lines self.new) }
        ensures lent { Lent self.old self.new }
    {
        self.retain(|line| !gone(line, from, stamp, objects));
    }
}

// Whether a word takes this line away.
fn gone(line: Line, from: House, stamp: Stamp, objects: &[u8]) -> bool
    requires { Ascending (numbers objects.now) }
    ensures { result ≡ goes from.0 (numbers objects.now) stamp.0 (listing line) }
{
    line.holder == from && line.stamp <= stamp && !holds(objects, line.object)
}

// Whether the object is among those of a part, which rise.
fn holds(objects: &[u8], object: Name) -> bool
    requires { Ascending (numbers objects.now) }
    ensures { result ≡ is_in object.0 (numbers objects.now) }
{
    let (numbers, _) = objects.as_chunks::<4>();
    numbers
        .binary_search_by_key(&object.0, |number| u32::from_be_bytes(*number))
        .is_ok()
}
