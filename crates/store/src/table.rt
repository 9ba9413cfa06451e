ghost use Rattle.std.specs.Prelude.{◌≡◌, ◌≤◌};
ghost use Rattle.lines.specs.Columns.{Alone, Own, Far};
ghost use Rattle.objects.specs.Calls.{heap_of};

use node::Head;
use objects::Objects;
use std::alloc::Global;

// A house with all its tables. Its list lies in four columns, of which the first `len` places are taken.
#[derive(Drop)]
pub struct Store {
    pub(crate) heap: Global,
    pub(crate) head: Head,
    pub(crate) objects: Objects,
    pub(crate) held: [u32; 2048],
    pub(crate) holders: [u32; 2048],
    pub(crate) stamps: [u32; 2048],
    pub(crate) censuses: [u32; 2048],
    pub(crate) len: usize,
    ghost within: { len ≤ 2048 },
    ghost alone: { Alone held holders len },
    ghost own: { Own (heap_of objects).home held len },
    ghost far: { Far (heap_of objects).home (heap_of objects).houses holders len },
}
