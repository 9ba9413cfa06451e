ghost use Rattle.std.specs.Prelude.{◌≡◌};
ghost use Rattle.wire.specs.Laws.{Rises};
ghost use Rattle.rules.specs.Step.{receives, came};
ghost use Rattle.node.specs.Shown.{by, never, Does};

use crate::head::Head;
use crate::lent::Tables;
use crate::sent::Answer;
use census::Mood;
use wire::Message;

impl Head {
    // A message that was read, with its objects' part.
    fn receive(self, tables: &mut Tables, message: Message, part: &[u8]) -> (Head, Answer)
        requires { Rises message part.now }
        ensures { Does never (receives message part.now) self tables.old result tables.new }
    {
        match message {
            Message::Ask { object, by, to } => self.hand(tables, object, by, to),
            Message::Give { object, to, stamp } => self.take(tables, object, to, stamp),
            Message::Word {
                from,
                to,
                stamp,
                ..
            } => self.hear(tables, from, to, stamp, part),
            Message::Telling {
                census,
                object,
                from,
            } => self.mark(tables, census, object, from),
            Message::Answer {
                census,
                object,
                from,
            } => self.settle(tables, census, object, from),
            Message::Round { census, number } => self.poll(tables, census, number),
            Message::Reply {
                census,
                number,
                from,
                calm,
                tally,
            } => self.note(tables, census, number, from, Mood::from(calm), tally),
            Message::Complete { census } => self.sweep(tables, census),
        }
    }

    // These bytes came, whatever they are.
    pub fn got(self, tables: &mut Tables, bytes: &[u8]) -> (Head, Answer)
        ensures { Does never (by (came bytes.now)) self tables.old result tables.new }
    {
        match wire::read(bytes, tables.list.houses) {
            Ok(read) => self.receive(tables, read.message, read.objects),
            Err(refusal) => (self, Err(refusal.into())),
        }
    }
}
