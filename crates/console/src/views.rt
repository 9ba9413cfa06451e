ghost use Rattle.std.specs.Prelude.{◌≡◌};
ghost use Rattle.store.specs.Stores.{house_in};
ghost use Rattle.console.specs.Views.{standing};

use store::Store;
use text::Status;
use wire::House;

/// Where a house stands.
pub fn status(house: House, store: &Store) -> Status
    ensures { result ≡ standing house (house_in store.now) }
{
    Status {
        house,
        census: store.census(),
        tally: store.tally(),
        round: store.round_number(),
        objects: store.objects().len(),
        roots: store.roots().len(),
        lines: store.line_count(),
    }
}
