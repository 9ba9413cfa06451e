ghost use Rattle.std.specs.Prelude.{◌≡◌, drop, nat_lt, IfOk, Ok, Err, MatchResult};
ghost use Rattle.wire.specs.Names.{house, well_formed};
ghost use Rattle.wire.specs.Format.{checked, name_at, decode, ask_of, give_of, word_of, telling_of, as_telling, as_answer, round_of, reply_of, complete_of, numbers, rising, follows};
ghost use Rattle.wire.specs.Laws.{ReadAs, Rises, Unique};

use crate::message::{Message, Part};
use crate::names::{Census, House, Name, RoundNumber, Stamp, Tally};
use crate::refusal::Refusal;

// A message that came, and the part of its bytes that holds its objects.
#[derive(Clone, Copy)]
pub struct Received<'a> {
    pub message: Message,
    pub objects: &'a [u8],
}

// What these bytes say among `houses` houses. Bytes that are read as a message are the only ones that are, and no message cut short or with more after it is read.
pub fn read(bytes: &[u8], houses: u8) -> Result<Received<'_>, Refusal>
    ensures value { MatchResult result (λ x. ReadAs houses bytes.now x.message x.objects.now) (λ e. decode houses bytes.now ≡ Err e) }
    ensures rises { IfOk result (λ x. Rises x.message x.objects.now) }
    ensures unique { IfOk result (λ x. Unique houses bytes.now x.message) }
{
    Reader { bytes, houses }.received()
}

// Bytes that came, and among how many houses.
#[derive(Clone, Copy)]
struct Reader<'a> {
    bytes: &'a [u8],
    houses: u8,
}

impl<'a> Reader<'a> {
    // The message with its objects beside it.
    fn received(self) -> Result<Received<'a>, Refusal>
        ensures { MatchResult result (λ x. ReadAs self.entry.houses self.entry.bytes.now x.message x.objects.now) (λ e. decode self.entry.houses self.entry.bytes.now ≡ Err e) }
    {
        let message = self.message()?;
        match message {
            Message::Word { objects, .. } => Ok(Received {
                message,
                objects: part(self.bytes, objects.at),
            }),
            _ => Ok(Received {
                message,
                objects: &[],
            }),
        }
    }

    fn message(self) -> Result<Message, Refusal>
        ensures { result ≡ decode self.entry.houses self.entry.bytes.now }
    {
        let [first, ..] = self.bytes else {
            return Err(Refusal::Malformed);
        };
        match *first {
            1 => self.ask(),
            2 => self.give(),
            3 => self.word(),
            4 => self.telling(),
            5 => self.answer(),
            6 => self.round(),
            7 => self.reply(),
            8 => self.complete(),
            0 | 9..=255 => Err(Refusal::Malformed),
        }
    }

    // A house that takes part.
    fn house(self, byte: u8) -> Result<House, Refusal>
        ensures { result ≡ checked (nat_lt byte self.entry.houses) (house byte) }
    {
        if byte < self.houses {
            Ok(House(byte))
        } else {
            Err(Refusal::Malformed)
        }
    }

    // A name that an object in one of the houses can have.
    fn name(self, bytes: [u8; 4]) -> Result<Name, Refusal>
        ensures { result ≡ checked (well_formed self.entry.houses (name_at bytes 0)) (name_at bytes 0) }
    {
        let name = Name(u32::from_be_bytes(bytes));
        if name.is_well_formed(self.houses) {
            Ok(name)
        } else {
            Err(Refusal::Malformed)
        }
    }

    fn ask(self) -> Result<Message, Refusal>
        ensures { result ≡ ask_of self.entry.houses self.entry.bytes.now }
    {
        let [_, a, b, c, d, by, to] = self.bytes else {
            return Err(Refusal::Malformed);
        };
        Ok(Message::Ask {
            object: self.name([*a, *b, *c, *d])?,
            by: self.house(*by)?,
            to: self.house(*to)?,
        })
    }

    fn give(self) -> Result<Message, Refusal>
        ensures { result ≡ give_of self.entry.houses self.entry.bytes.now }
    {
        let [_, a, b, c, d, to, e, f, g, h] = self.bytes else {
            return Err(Refusal::Malformed);
        };
        Ok(Message::Give {
            object: self.name([*a, *b, *c, *d])?,
            to: self.house(*to)?,
            stamp: Stamp(u32::from_be_bytes([*e, *f, *g, *h])),
        })
    }

    fn word(self) -> Result<Message, Refusal>
        ensures { result ≡ word_of self.entry.houses self.entry.bytes.now }
    {
        let [_, from, to, a, b, c, d, e, f, ..] = self.bytes else {
            return Err(Refusal::Malformed);
        };
        let count = u16::from_be_bytes([*e, *f]);
        if self.bytes.len() != 9 + 4 * usize::from(count) {
            return Err(Refusal::Malformed);
        }
        // before the objects, which are up to 65,535 to walk over
        let (from, to) = (self.house(*from)?, self.house(*to)?);
        if !rises(part(self.bytes, 9), to.0) {
            return Err(Refusal::Malformed);
        }
        Ok(Message::Word {
            from,
            to,
            stamp: Stamp(u32::from_be_bytes([*a, *b, *c, *d])),
            objects: Part { at: 9, count },
        })
    }

    // What a telling and its answer both hold.
    fn told(self) -> Result<(Census, Name, House), Refusal>
        ensures { result ≡ telling_of self.entry.houses self.entry.bytes.now }
    {
        let [_, a, b, c, d, e, f, g, h, from] = self.bytes else {
            return Err(Refusal::Malformed);
        };
        let census = Census(u32::from_be_bytes([*a, *b, *c, *d]));
        Ok((census, self.name([*e, *f, *g, *h])?, self.house(*from)?))
    }

    // A telling and its answer: what is left once `told` has read both is the case.
    fn telling(self) -> Result<Message, Refusal>
        ensures { result ≡ as_telling (telling_of self.entry.houses self.entry.bytes.now) }
    {
        let (census, object, from) = self.told()?;
        Ok(Message::Telling {
            census,
            object,
            from,
        })
    }

    fn answer(self) -> Result<Message, Refusal>
        ensures { result ≡ as_answer (telling_of self.entry.houses self.entry.bytes.now) }
    {
        let (census, object, from) = self.told()?;
        Ok(Message::Answer {
            census,
            object,
            from,
        })
    }

    fn round(self) -> Result<Message, Refusal>
        ensures { result ≡ round_of self.entry.bytes.now }
    {
        let [_, a, b, c, d, e, f, g, h] = self.bytes else {
            return Err(Refusal::Malformed);
        };
        Ok(Message::Round {
            census: Census(u32::from_be_bytes([*a, *b, *c, *d])),
            number: RoundNumber(u32::from_be_bytes([*e, *f, *g, *h])),
        })
    }

    fn reply(self) -> Result<Message, Refusal>
        ensures { result ≡ reply_of self.entry.houses self.entry.bytes.now }
    {
        let [_, a, b, c, d, e, f, g, h, from, calm, i, j, k, l] = self.bytes else {
            return Err(Refusal::Malformed);
        };
        if *calm > 1 {
            return Err(Refusal::Malformed);
        }
        Ok(Message::Reply {
            census: Census(u32::from_be_bytes([*a, *b, *c, *d])),
            number: RoundNumber(u32::from_be_bytes([*e, *f, *g, *h])),
            from: self.house(*from)?,
            calm: *calm == 1,
            tally: Tally(u32::from_be_bytes([*i, *j, *k, *l])),
        })
    }

    fn complete(self) -> Result<Message, Refusal>
        ensures { result ≡ complete_of self.entry.bytes.now }
    {
        let [_, a, b, c, d] = self.bytes else {
            return Err(Refusal::Malformed);
        };
        Ok(Message::Complete {
            census: Census(u32::from_be_bytes([*a, *b, *c, *d])),
        })
    }
}

// The bytes from this place on.
fn part(bytes: &[u8], at: usize) -> &[u8]
    ensures { result.now ≡ drop at bytes.now }
{
    bytes.get(at..).unwrap_or(&[])
}

// Whether an object of house `to` comes after one with the name `low`.
fn is_next(low: u32, object: u32, to: u8) -> bool
    ensures { result ≡ follows to low object }
{
    low < object && object % 16 == u32::from(to)
}

// Whether the objects of a part rise and live in house `to`.
fn rises(objects: &[u8], to: u8) -> bool
    ensures { result ≡ rising to 15 (numbers objects.now) }
{
    let mut low = 15;
    let (numbers, _) = objects.as_chunks::<4>();
    for number in numbers {
        let object = u32::from_be_bytes(*number);
        if !is_next(low, object, to) {
            return false;
        }
        low = object;
    }
    true
}
