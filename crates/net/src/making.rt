ghost use Rattle.std.specs.Prelude.{◌≡◌, ◌≤◌, map, MatchResult};
ghost use Rattle.objects.specs.declared.fault.Fault.TheVariants.{NoMemory};
ghost use Rattle.store.specs.Stores.{house_in};
ghost use Rattle.net.specs.Rows.{empties};
ghost use Rattle.net.specs.Laws.{Lawful};
ghost use Rattle.net.specs.Nets.{Begun, Unbegun};

use crate::net::Net;
use objects::Fault;
use std::alloc::Global;
use store::Store;
use wire::{House, Refusal};

// So many houses with nothing in them.
fn row(heap: Global, count: u8) -> Result<Vec<Store>, Fault>
    requires { count ≤ 16 }
    ensures { MatchResult result (λ v. map house_in v.items ≡ empties count count) (λ e. e ≡ NoMemory) }
{
    let mut houses = Vec::with_capacity(heap, usize::from(count))?;
    for house in 0..count {
        houses.push_reserved(Store::new(heap, House(house), count)?);
    }
    Ok(houses)
}

impl Net {
    // A net of `count` houses, from 1 to 16, with nothing in them and nothing sent.
    pub fn new(heap: Global, count: u8) -> Result<Net, Fault>
        ensures begun { MatchResult result (λ t. Begun count t) (λ e. Unbegun count e) }
        ensures lawful { Lawful }
    {
        if !(1..=16).contains(&count) {
            return Err(Refusal::Malformed.into());
        }
        let houses = row(heap, count)?;
        Ok(Net {
            heap,
            houses,
            sent: Vec::new(heap),
            faithful: true,
        })
    }
}
