ghost use Rattle.std.specs.Prelude.{◌≡◌};
ghost use Rattle.census.specs.Model.{asks};

use wire::House;

// The house that asks the rounds, to which every reply goes.
pub const ASKER: House = House(0);

// Whether this house asks the rounds.
pub fn is_asker(house: House) -> bool
    ensures { result ≡ asks house.0 }
{
    house == ASKER
}
