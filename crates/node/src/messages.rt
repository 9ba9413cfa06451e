ghost use Rattle.std.specs.Prelude.{◌≡◌, true, if◌then◌else◌, nat_lt};
ghost use Rattle.wire.specs.Format.{numbers, rising};
ghost use Rattle.objects.specs.Calls.{heap_of};
ghost use Rattle.lines.specs.Listed.{joined};
ghost use Rattle.lines.specs.Lists.{lines, Lent};
ghost use Rattle.objects.specs.declared.store.Objects.{Objects};
ghost use Rattle.lines.specs.Stamping.{heard_from};
ghost use Rattle.census.specs.Model.{fresh};
ghost use Rattle.census.specs.Standings.{part_of};
ghost use Rattle.rules.specs.Step.{authorised, caught_up, gives, handed, takes, hears, told, settles, sweeps};
ghost use Rattle.node.specs.Shown.{house_lent, house_of, never, Does};

use crate::calls::quiet;
use crate::head::Head;
use crate::lent::Tables;
use crate::sent::{Answer, Sent};
use census::Marked;
use lines::Lines;
use rounds::Desk;
use wire::{Census, House, Message, Name, Refusal, Stamp};

impl Head {
    // Whether `by` may have the object handed on: it is the home itself and has it as a root, or holds it by a line of the home's census.
    fn authorises(&self, tables: &Tables, object: Name, by: House) -> bool
        ensures { result ≡ authorised object.0 by.0 (house_lent self.now tables.now) }
    {
        (by == tables.list.home && tables.objects.is_root(object))
            || tables.list.is_held(object, by, self.standing.census())
    }

    // The object is handed to another house.
    fn give(&mut self, tables: &mut Tables, object: Name, to: House) -> Answer
        ensures { Does never (gives object.0 to.0) self.old tables.old (self.new, result) tables.new }
    {
        if !tables.list.has_room(object, to) {
            return Err(Refusal::NoRoom.into());
        }
        let stamp = self.stamps.next_for(to)?;
        tables
            .list
            .enter(object, to, stamp, self.standing.census())?;
        let _ = self.stamps.give(to);
        Ok(Sent::One(Message::Give { object, to, stamp }))
    }

    // Asked by `by` to hand an object to `to`.
    pub(crate) fn hand(
        mut self,
        tables: &mut Tables,
        object: Name,
        by: House,
        to: House,
    ) -> (Head, Answer)
        ensures { Does never (handed object.0 by.0 to.0) self tables.old result tables.new }
    {
        let home = tables.list.home;
        if object.home() != home {
            return (self, Err(Refusal::Misdelivered.into()));
        }
        if !tables.objects.is_present(object) {
            return (self, Err(Refusal::NotHere.into()));
        }
        if !self.authorises(tables, object, by) {
            return (self, Err(Refusal::NotHolder.into()));
        }
        if to == home {
            return (self, quiet(tables.objects.root(object)));
        }
        let answer = self.give(tables, object, to);
        (self, answer)
    }

    // A reference was handed to `to`.
    pub(crate) fn take(
        mut self,
        tables: &mut Tables,
        object: Name,
        to: House,
        stamp: Stamp,
    ) -> (Head, Answer)
        ensures { Does never (takes object.0 to.0 stamp.0) self tables.old result tables.new }
    {
        let home = tables.list.home;
        let from = object.home();
        if to != home || from == home {
            return (self, Err(Refusal::Misdelivered.into()));
        }
        if stamp <= self.stamps.seen_from(from) {
            return (self, Err(Refusal::OldStamp.into()));
        }
        // no `?`: the head is handed back, and its part in the census cannot be moved out of a `&mut`
        if let Err(refusal) = tables.objects.take(object) {
            return (self, Err(refusal.into()));
        }
        let _ = self.stamps.see(from, stamp);
        self.standing = self.standing.taken();
        (self, Ok(Sent::Nothing))
    }

    // A word of house `from`.
    pub(crate) fn hear(
        mut self,
        tables: &mut Tables,
        from: House,
        to: House,
        stamp: Stamp,
        part: &[u8],
    ) -> (Head, Answer)
        requires { rising to.0 15 (numbers part.now) ≡ true }
        ensures { Does never (hears from.0 to.0 stamp.0 (numbers part.now)) self tables.old result tables.new }
    {
        let home = tables.list.home;
        if to != home {
            return (self, Err(Refusal::Misdelivered.into()));
        }
        tables.list.hear(from, stamp, part);
        let _ = self.stamps.hear(from, stamp);
        (self, Ok(Sent::Nothing))
    }

    // A census above the own is joined.
    pub(crate) fn catch_up(mut self, list: &mut Lines, census: Census) -> Head
        ensures after { (os : Objects) → house_of result os list.new ≡ caught_up census.0 (house_of self os list.old) }
        ensures lent { Lent list.old list.new }
    {
        if census <= self.standing.census() {
            return self;
        }
        list.join(census, &self.stamps);
        (self.standing, _) = self.standing.join(census);
        self.desk = Desk::new();
        self
    }

    // House `from` tells that it uses an object of this house in a census.
    pub(crate) fn mark(
        self,
        tables: &mut Tables,
        census: Census,
        object: Name,
        from: House,
    ) -> (Head, Answer)
        ensures { Does never (told census.0 object.0 from.0) self tables.old result tables.new }
    {
        let home = tables.list.home;
        if object.home() != home {
            return (self, Err(Refusal::Misdelivered.into()));
        }
        if census < self.standing.census() {
            return (self, Err(Refusal::OtherCensus.into()));
        }
        let mut head = self.catch_up(tables.list, census);
        let line = if tables.list.mark(object, from, census) {
            Marked::New
        } else {
            Marked::Again
        };
        head.standing = head.standing.counted(line);
        let answer = Message::Answer {
            census,
            object,
            from,
        };
        (head, Ok(Sent::One(answer)))
    }

    // The answer to a telling of this house.
    pub(crate) fn settle(
        mut self,
        tables: &Tables,
        census: Census,
        object: Name,
        from: House,
    ) -> (Head, Answer)
        ensures { Does never (settles census.0 object.0 from.0) self tables.now result tables.now }
    {
        if from != tables.list.home {
            return (self, Err(Refusal::Misdelivered.into()));
        }
        let (standing, answer) = self.standing.answered(census, object);
        self.standing = standing;
        (self, quiet(answer))
    }

    // The news that a census is complete.
    pub(crate) fn sweep(self, tables: &mut Tables, census: Census) -> (Head, Answer)
        ensures { Does never (sweeps census.0) self tables.old result tables.new }
    {
        if census != self.standing.census() {
            return (self, Err(Refusal::OtherCensus.into()));
        }
        tables.list.sweep(census);
        (self, Ok(Sent::Nothing))
    }
}
