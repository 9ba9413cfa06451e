ghost use Rattle.std.specs.Prelude.{◌≡◌, [], length};
ghost use Rattle.play.specs.Settle.{above, tallies};
ghost use Rattle.net.specs.Worlds.{world_of};

use store::Store;

// How many lines were newly marked in all houses.
pub(crate) fn tallies(houses: &[Store]) -> u128
    ensures { result ≡ tallies (length houses.now) (world_of houses.now []) }
{
    let mut sum = 0;
    for house in houses {
        sum += u128::from(house.tally().0);
    }
    sum
}

// A census above those of all houses.
pub(crate) fn above(houses: &[Store]) -> u64
    ensures { result ≡ above (length houses.now) (world_of houses.now []) }
{
    let mut census = 0;
    for house in houses {
        census = census.max(u64::from(house.census().0) + 1);
    }
    census
}
