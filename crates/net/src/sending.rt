ghost use Rattle.std.specs.Prelude.{◌≡◌, [], ◌++◌, ◌↔◌, map, is_ok, IsTrue, OnErr, if◌then◌else◌};
ghost use mathlib.Core.List.{Memᴰ};
ghost use Rattle.node.specs.Shown.{letters};
ghost use Rattle.store.specs.Sending.{bytes_of, contents, items_in};
ghost use Rattle.net.specs.Posted.{Posted};

use crate::played::{Played, Setback};
use node::{Answer, Sent};
use std::alloc::{AllocError, Global};

// What a house sent comes after all that was sent before: all of it, or nothing where memory is wanting.
fn post(heap: Global, said: &Sent, sent: &mut Vec<Vec<u8>>) -> Result<(), AllocError>
    ensures kept { contents sent.new ≡ (if is_ok result then contents sent.old ++ map bytes_of (letters said.now) else contents sent.old) }
    ensures asks { OnErr result (letters said.now ≡ [] → ⊥) }
{
    let mut new = store::messages(heap, said)?;
    sent.append(&mut new)
}

// What a house sent is kept.
pub(crate) fn keep(heap: Global, answer: Answer, sent: &mut Vec<Vec<u8>>) -> Played
    ensures { Posted result answer sent.old sent.new }
{
    let said = answer?;
    post(heap, &said, sent).map_err(|_| Setback::Lost)
}

// Whether these are the bytes of one of the messages.
pub(crate) fn was_sent(sent: &[Vec<u8>], bytes: &[u8]) -> bool
    ensures { IsTrue result ↔ Memᴰ bytes.now (map items_in sent.now) }
{
    for message in sent {
        if message.as_slice() == bytes {
            return true;
        }
    }
    false
}
