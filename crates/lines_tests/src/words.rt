ghost use Rattle.std.specs.Prelude.{◌≡◌};
ghost use Rattle.wire.specs.Format.{numbers, rising};

use lines::Lines;
use wire::{House, Stamp};

// Whether the objects of a part rise and live in this house.
fn rises(objects: &[u8], home: House) -> bool
    ensures { result ≡ rising home.0 15 (numbers objects.now) }
{
    let mut low = 15;
    let mut rest = objects;
    while let [a, b, c, d, more @ ..] = rest {
        let object = u32::from_be_bytes([*a, *b, *c, *d]);
        if object <= low || object % 16 != home.0 as u32 {
            return false;
        }
        low = object;
        rest = more;
    }
    true
}

// A word is heard; false if its objects do not rise.
pub fn word(list: &mut Lines, from: House, stamp: Stamp, objects: &[u8]) -> bool {
    if !rises(objects, list.home) {
        return false;
    }
    list.hear(from, stamp, objects);
    true
}
