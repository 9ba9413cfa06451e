ghost use Rattle.std.specs.Prelude.{◌≡◌, ◌+◌, ◌≤◌, true, [], ◌∷◌, ◌++◌, length, is_ok, if◌then◌else◌, vec_len, vec_capacity};
ghost use Rattle.wire.specs.Format.{bytes4, head_of, encode};
ghost use Rattle.wire.specs.Laws.{ReadsBack};
ghost use Rattle.wire.specs.declared.message.Message.TheVariants.{Reply};

use crate::message::Message;
use crate::names::{Census, House, Name, RoundNumber, Tally};
use std::alloc::AllocError;

// A telling and its answer, which differ in the first byte.
fn told(first: u8, census: Census, object: Name, from: House) -> [u8; 10]
    ensures { result ≡ first ∷ (bytes4 census.0 ++ (bytes4 object.0 ++ (from.0 ∷ []))) }
{
    let [a, b, c, d] = census.0.to_be_bytes();
    let [e, f, g, h] = object.0.to_be_bytes();
    [first, a, b, c, d, e, f, g, h, from.0]
}

fn reply(census: Census, number: RoundNumber, from: House, calm: bool, tally: Tally) -> [u8; 15]
    ensures { result ≡ head_of (Reply census number from calm tally) }
{
    let [a, b, c, d] = census.0.to_be_bytes();
    let [e, f, g, h] = number.0.to_be_bytes();
    let [i, j, k, l] = tally.0.to_be_bytes();
    [
        7,
        a,
        b,
        c,
        d,
        e,
        f,
        g,
        h,
        from.0,
        u8::from(calm),
        i,
        j,
        k,
        l,
    ]
}

// All of a message but a word's objects.
fn write_head(message: Message, out: &mut Vec<u8>) -> Result<(), AllocError>
    ensures bytes { out.new.items ≡ (if is_ok result then out.old.items ++ head_of message else out.old.items) }
    ensures succeeds { vec_len out.old + 15 ≤ vec_capacity out.old → is_ok result ≡ true }
    ensures room { (vec_capacity out.old ≤ vec_capacity out.new) × (vec_len out.new ≤ vec_len out.old + 15) }
{
    match message {
        Message::Ask { object, by, to } => {
            let [a, b, c, d] = object.0.to_be_bytes();
            out.extend_from_slice(&[1, a, b, c, d, by.0, to.0])
        }
        Message::Give { object, to, stamp } => {
            let [a, b, c, d] = object.0.to_be_bytes();
            let [e, f, g, h] = stamp.0.to_be_bytes();
            out.extend_from_slice(&[2, a, b, c, d, to.0, e, f, g, h])
        }
        Message::Word {
            from,
            to,
            stamp,
            objects,
        } => {
            let [a, b, c, d] = stamp.0.to_be_bytes();
            let [e, f] = objects.count.to_be_bytes();
            out.extend_from_slice(&[3, from.0, to.0, a, b, c, d, e, f])
        }
        Message::Telling {
            census,
            object,
            from,
        } => { out.extend_from_slice(&told(4, census, object, from)) }
        Message::Answer {
            census,
            object,
            from,
        } => { out.extend_from_slice(&told(5, census, object, from)) }
        Message::Round { census, number } => {
            let [a, b, c, d] = census.0.to_be_bytes();
            let [e, f, g, h] = number.0.to_be_bytes();
            out.extend_from_slice(&[6, a, b, c, d, e, f, g, h])
        }
        Message::Reply {
            census,
            number,
            from,
            calm,
            tally,
        } => {
            let bytes = reply(census, number, from, calm, tally);
            out.extend_from_slice(&bytes)
        }
        Message::Complete { census } => {
            let [a, b, c, d] = census.0.to_be_bytes();
            out.extend_from_slice(&[8, a, b, c, d])
        }
    }
}

// Appends the bytes of a message, with a word's objects beside it, to `out`.
// Where memory is wanting nothing is appended; where `out` has room none is asked for.
#[tactic(auto, using(crate::proofs::Trips::reads_back))]
pub fn write(message: Message, objects: &[u8], out: &mut Vec<u8>) -> Result<(), AllocError>
    ensures bytes { out.new.items ≡ (if is_ok result then out.old.items ++ encode message objects.now else out.old.items) }
    ensures succeeds { vec_len out.old + (15 + length objects.now) ≤ vec_capacity out.old → is_ok result ≡ true }
    ensures read_back { ReadsBack message objects.now }
{
    let Some(size) = objects.len().checked_add(15) else {
        return Err(AllocError);
    };
    out.reserve(size)?;
    write_head(message, out)?;
    out.extend_from_slice(objects)
}
