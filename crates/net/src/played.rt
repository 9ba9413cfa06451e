ghost use Rattle.std.specs.Prelude.{◌≡◌, is_ok};
ghost use Rattle.net.specs.Nets.{had_memory};
ghost use Rattle.net.specs.declared.played.Setback.TheVariants as setback;
ghost use Rattle.objects.specs.declared.fault.Fault.TheVariants as fault;

use objects::Fault;
use std::alloc::AllocError;
use wire::Refusal;

// Why an entry was not played, or not to its end.
#[derive(Clone, Copy, Debug, PartialEq, Eq)]
pub enum Setback {
    // it changed nothing
    Fault(Fault),
    // the house did its step, but there was no memory to keep what it sent: as if the network had lost it
    Lost,
}

// How an entry ended: where it was played, what it sent is kept.
pub type Played = Result<(), Setback>;

impl From<Fault> for Setback {
    ghost from_gives = { λ fault r. r ≡ setback.Fault fault };

    fn from(fault: Fault) -> Setback {
        Setback::Fault(fault)
    }
}

impl From<Refusal> for Setback {
    ghost from_gives = { λ refusal r. r ≡ setback.Fault (fault.Refused refusal) };

    fn from(refusal: Refusal) -> Setback {
        Setback::Fault(Fault::Refused(refusal))
    }
}

// A refusal is no reason to break off what many entries do together; want of memory is.
pub(crate) fn with_memory(played: Played) -> Result<(), AllocError>
    ensures { is_ok result ≡ had_memory played }
{
    match played {
        Ok(()) | Err(Setback::Fault(Fault::Refused(_))) => Ok(()),
        Err(Setback::Fault(Fault::NoMemory) | Setback::Lost) => Err(AllocError),
    }
}
