ghost use Rattle.std.specs.Prelude.{◌≡◌, ◌≤◌};
ghost use Rattle.lines.specs.Columns.{Roomy, Alone, Own, Far};

use wire::House;

// The list of house `home` among `houses` houses, in four lent columns: which of its objects other houses hold.
// The first `len` of `room` places are taken, and there are at most 2,048. No object and holder stand in two lines;
// every object lives here, and every holder is another house. A house that keeps the columns between calls lends them
// by writing this struct out; what the ghost fields say it keeps too.
#[derive(Drop)]
pub struct Lines<'a> {
    pub objects: &'a mut [u32],
    pub holders: &'a mut [u32],
    pub stamps: &'a mut [u32],
    pub censuses: &'a mut [u32],
    pub len: usize,
    pub room: usize,
    pub home: House,
    pub houses: u8,
    ghost within: { len ≤ room },
    ghost most: { room ≤ 2048 },
    ghost roomy: { Roomy room objects.now holders.now stamps.now censuses.now },
    ghost sixteen: { houses ≤ 16 },
    ghost alone: { Alone objects.now holders.now len },
    ghost own: { Own home.0 objects.now len },
    ghost far: { Far home.0 houses holders.now len },
}
