ghost use Rattle.std.specs.Prelude.{◌≡◌};
ghost use Rattle.node.specs.Recipients.{recipient_of, Elsewhere};

use crate::sent::Recipient;
use census::ASKER;
use wire::Message;

// Whom a message is for, by what it says.
pub fn goes_to(message: Message) -> Recipient
    ensures value { result ≡ recipient_of message }
    ensures elsewhere { Elsewhere message result }
{
    match message {
        Message::Ask { object, .. } | Message::Telling { object, .. } => {
            Recipient::One(object.home())
        }
        Message::Give { to, .. } | Message::Word { to, .. } => Recipient::One(to),
        Message::Answer { from, .. } => Recipient::One(from),
        Message::Round { .. } | Message::Complete { .. } => Recipient::Every,
        Message::Reply { .. } => Recipient::One(ASKER),
    }
}
