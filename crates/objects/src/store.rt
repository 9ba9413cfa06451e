ghost use Rattle.std.specs.Prelude.{◌≡◌, ◌<◌, ◌≤◌, true, vec_len, vec_capacity};
ghost use Rattle.tables.specs.Model.{rising, all_own, all_well, fields_well};
ghost use Rattle.tables.specs.Shown.{numbers, names_in, objects_of};

use tables::Object;
use wire::{House, Name};

// The objects and roots of one house. The room for them is taken once, when it is made.
#[derive(Drop)]
pub struct Objects {
    pub(crate) home: House,
    pub(crate) houses: u8,
    // the highest number that an object was made with
    pub(crate) made: u32,
    pub(crate) objects: Vec<Object>,
    pub(crate) roots: Vec<Name>,
    ghost sixteen: { houses ≤ 16 },
    ghost inside: { home.0 < houses },
    ghost few: { vec_len objects ≤ 1024 },
    ghost room: { 1024 ≤ vec_capacity objects },
    ghost ordered: { rising (names_in objects.items) ≡ true },
    ghost own: { all_own home.0 made (names_in objects.items) ≡ true },
    ghost few_roots: { vec_len roots ≤ 256 },
    ghost room_roots: { 256 ≤ vec_capacity roots },
    ghost ordered_roots: { rising (numbers roots.items) ≡ true },
    ghost well_roots: { all_well houses (numbers roots.items) ≡ true },
    ghost well_fields: { fields_well houses (objects_of objects.items) ≡ true },
}
