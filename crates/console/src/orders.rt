ghost use Rattle.std.specs.Prelude.{◌≡◌, true, IfOk, OnErr};
ghost use Rattle.text.specs.Lines.{said};
ghost use Rattle.store.specs.Stores.{house_in};
ghost use Rattle.console.specs.Orders.{event_in, spells, Follows, Sends};

use node::Answer;
use objects::Fault;
use std::alloc::{AllocError, Global};
use store::Store;
use text::Order;
use wire::Refusal;

// A house does what it is told. Memory for that is wanted only to spell out bytes, from digits that are even in number.
pub fn follow(heap: Global, store: &mut Store, order: Order<'_>) -> Result<Answer, AllocError>
    ensures step { IfOk result (λ a. Follows a (event_in (said order.entry)) (house_in store.old) (house_in store.new)) }
    ensures kept { OnErr result (house_in store.new ≡ house_in store.old) }
    ensures asks { OnErr result (spells (said order.entry) ≡ true) }
{
    match order {
        Order::Call(call) => Ok(store.call(call)),
        Order::Got(digits) => match text::read_hex(heap, digits)? {
            Some(bytes) => Ok(store.got(&bytes)),
            None => Ok(Err(Refusal::Malformed.into())),
        },
    }
}

/// The messages that a house answered with, or its refusal.
pub fn messages(heap: Global, answer: &Answer) -> anyhow::Result<Result<Vec<Vec<u8>>, Refusal>>
    ensures { IfOk result (λ r. Sends answer.now r) }
{
    match answer {
        Ok(sent) => Ok(Ok(store::messages(heap, sent)?)),
        Err(Fault::Refused(refusal)) => Ok(Err(*refusal)),
        Err(Fault::NoMemory) => Err(AllocError.into()),
    }
}
