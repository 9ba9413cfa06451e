ghost use Rattle.std.specs.Prelude.{◌≡◌, [], map, IfOk, OnErr};
ghost use Rattle.wire.specs.Format.{encode};
ghost use Rattle.node.specs.Shown.{letters};
ghost use Rattle.store.specs.Sending.{bytes_of, contents, tellings};

use node::Sent;
use std::alloc::{AllocError, Global};
use wire::{Census, House, Message, Name};

// The bytes of one message, with a word's objects beside it.
fn message_bytes(heap: Global, message: Message, objects: &[u8]) -> Result<Vec<u8>, AllocError>
    ensures { IfOk result (λ v. v.items ≡ encode message objects.now) }
{
    let mut out = Vec::new(heap);
    wire::write(message, objects, &mut out)?;
    Ok(out)
}

fn telling_bytes(
    heap: Global,
    census: Census,
    from: House,
    names: &[Name],
) -> Result<Vec<Vec<u8>>, AllocError>
    ensures bytes { IfOk result (λ v. contents v ≡ map bytes_of (tellings census from names.now)) }
    ensures asks { OnErr result (names.now ≡ [] → ⊥) }
{
    let mut out = Vec::new(heap);
    for &object in names {
        let telling = Message::Telling {
            census,
            object,
            from,
        };
        out.push(message_bytes(heap, telling, &[])?)?;
    }
    Ok(out)
}

// The bytes of each message that a step sends, in their order. Where it sends none no memory is wanted.
pub fn messages(heap: Global, sent: &Sent) -> Result<Vec<Vec<u8>>, AllocError>
    ensures bytes { IfOk result (λ v. contents v ≡ map bytes_of (letters sent.now)) }
    ensures asks { OnErr result (letters sent.now ≡ [] → ⊥) }
{
    match sent {
        Sent::Nothing => Ok(Vec::new(heap)),
        Sent::One(message) => Ok(vec![in heap; message_bytes(heap, *message, &[])?]?),
        Sent::Word(message, objects) => Ok(vec![in heap; message_bytes(heap, *message, objects)?]?),
        Sent::Tellings(census, from, names) => telling_bytes(heap, *census, *from, names),
    }
}
