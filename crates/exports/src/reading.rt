ghost use Rattle.std.specs.Prelude.{◌≡◌};
ghost use Rattle.wire.specs.Format.{decode};
ghost use Rattle.wire.specs.Refusals.{number_of};
ghost use Rattle.exports.specs.Saying.{said_of, said, refused};

use crate::said::Said;
use wire::{Message, Refusal};

// What these bytes say among `houses` houses.
#[unsafe(no_mangle)]
pub extern "C" fn exports_read(bytes: &[u8], houses: u8) -> Said
    ensures { result ≡ said (decode houses bytes.now) }
{
    match wire::read(bytes, houses) {
        Ok(read) => parts(read.message),
        Err(refusal) => no(refusal),
    }
}

fn no(refusal: Refusal) -> Said
    ensures { result ≡ refused (number_of refusal) }
{
    Said {
        refusal: refusal.number(),
        ..Said::default()
    }
}

fn parts(message: Message) -> Said
    ensures { result ≡ said_of message }
{
    match message {
        Message::Ask { object, by, to } => Said {
            kind: 1,
            object: object.0,
            by: by.0,
            to: to.0,
            ..Said::default()
        },
        Message::Give { object, to, stamp } => Said {
            kind: 2,
            object: object.0,
            to: to.0,
            stamp: stamp.0,
            ..Said::default()
        },
        Message::Word {
            from,
            to,
            stamp,
            objects,
        } => Said {
            kind: 3,
            from: from.0,
            to: to.0,
            stamp: stamp.0,
            count: objects.count,
            ..Said::default()
        },
        Message::Telling {
            census,
            object,
            from,
        } => Said {
            kind: 4,
            census: census.0,
            object: object.0,
            from: from.0,
            ..Said::default()
        },
        Message::Answer {
            census,
            object,
            from,
        } => Said {
            kind: 5,
            census: census.0,
            object: object.0,
            from: from.0,
            ..Said::default()
        },
        Message::Round { census, number } => Said {
            kind: 6,
            census: census.0,
            round: number.0,
            ..Said::default()
        },
        Message::Reply {
            census,
            number,
            from,
            calm,
            tally,
        } => Said {
            kind: 7,
            census: census.0,
            round: number.0,
            from: from.0,
            calm,
            tally: tally.0,
            ..Said::default()
        },
        Message::Complete { census } => Said {
            kind: 8,
            census: census.0,
            ..Said::default()
        },
    }
}
