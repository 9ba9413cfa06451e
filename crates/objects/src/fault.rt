ghost use Rattle.std.specs.Prelude.{◌≡◌};
ghost use Rattle.objects.specs.declared.fault.Fault.TheVariants.{NoMemory, Refused};

use std::alloc::AllocError;
use wire::Refusal;

// Why nothing was done: a rule refused it, or memory was wanting.
#[derive(Clone, Copy, Debug, PartialEq, Eq)]
pub enum Fault {
    Refused(Refusal),
    NoMemory,
}

impl From<Refusal> for Fault {
    ghost from_gives = { λ refusal r. r ≡ Refused refusal };

    fn from(refusal: Refusal) -> Fault {
        Fault::Refused(refusal)
    }
}

impl From<AllocError> for Fault {
    ghost from_gives = { λ _ r. r ≡ NoMemory };

    fn from(_error: AllocError) -> Fault {
        Fault::NoMemory
    }
}
