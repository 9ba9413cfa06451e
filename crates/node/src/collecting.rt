ghost use Rattle.std.specs.Prelude.{◌≡◌, true, [], IfOk, OnErr};
ghost use Rattle.tables.specs.Shown.{numbers};
ghost use Rattle.objects.specs.Calls.{heap_of};
ghost use Rattle.objects.specs.Executed.{names_in_use, references_of};
ghost use Rattle.census.specs.Model.{all_told};
ghost use Rattle.census.specs.Standings.{part_of};
ghost use Rattle.rules.specs.Step.{used, polled, worded, bytes_of, collect, word, join, tell};
ghost use Rattle.lines.specs.declared.table.Lines.{Lines};
ghost use Rattle.lines.specs.Lists.{Lent};
ghost use Rattle.node.specs.Tied.{Tied};
ghost use Rattle.node.specs.Shown.{allocates, by, house_lent, house_of, is_listed, never, Does, Gives, Steps};

use crate::head::Head;
use crate::lent::Tables;
use crate::sent::{Answer, Sent};
use lines::Lines;
use objects::{Fault, Objects};
use std::alloc::{AllocError, Global};
use wire::{Census, House, Message, Name, Part, Refusal, RoundNumber};

impl Head {
    // The objects that are met neither from the roots nor from the list are freed.
    pub fn collect(self, objects: &mut Objects, list: &Lines) -> (Head, Answer)
        ensures { Steps result collect (house_of self objects.old list.now) objects.new list.now }
    {
        let mut names = [Name(0); 2048];
        let count = list.objects(&mut names);
        objects.collect(&names[..count]);
        (self, Ok(Sent::Nothing))
    }

    // A census of this number is joined.
    pub fn join(self, objects: &Objects, list: &mut Lines, census: u64) -> (Head, Answer)
        ensures step { Steps result (join census) (house_of self objects.now list.old) objects.now list.new }
        ensures lent { Lent list.old list.new }
    {
        let census = match u32::try_from(census) {
            Ok(number) if Census(number) > self.standing.census() => Census(number),
            _ => return (self, Err(Refusal::OutOfNumbers.into())),
        };
        let head = self.catch_up(list, census);
        (head, Ok(Sent::Nothing))
    }

    // All that is in use of other houses is told to them, until they answer.
    pub fn tell(mut self, tables: &Tables) -> (Head, Answer)
        ensures { Does (allocates tell) (by tell) self tables.now result tables.now }
    {
        let census = self.standing.census();
        let mut names = [Name(0); 2048];
        let count = tables.list.objects_in(census, &mut names);
        let Ok(in_use) = met_from(self.heap, tables.objects, &names[..count]) else {
            return (self, Err(Fault::NoMemory));
        };
        let (standing, due) = self.standing.tell(&in_use);
        self.standing = standing;
        let Ok(names) = due else {
            return (self, Err(Fault::NoMemory));
        };
        (self, Ok(Sent::Tellings(census, tables.list.home, names)))
    }

    // Whether every far reference in use was told in the house's census. They are not listed for that, so that a round wants no memory.
    fn has_told(&self, tables: &Tables) -> bool
        ensures { result ≡ all_told (used (house_lent self.now tables.now)) (part_of self.now.standing) }
    {
        let mut names = [Name(0); 2048];
        let count = tables.list.objects_in(self.standing.census(), &mut names);
        tables
            .objects
            .uses_only(&names[..count], self.standing.told())
    }

    // A round of a census, which is joined first if it is above the own: the house says whether it is calm.
    pub(crate) fn poll(
        self,
        tables: &mut Tables,
        census: Census,
        number: RoundNumber,
    ) -> (Head, Answer)
        ensures { Does never (polled census.0 number.0) self tables.old result tables.new }
    {
        if census < self.standing.census() {
            return (self, Err(Refusal::OtherCensus.into()));
        }
        let mut head = self.catch_up(tables.list, census);
        let has_told = head.has_told(tables);
        let (standing, answer) = head
            .standing
            .reply(tables.list.home, census, number, has_told);
        head.standing = standing;
        (head, answer.map(Sent::One).map_err(Fault::from))
    }

    // House `to` is told which of its objects this house has, and how far it has taken what was handed to it.
    pub fn word(self, objects: &Objects, list: &Lines, to: House) -> (Head, Answer)
        ensures { Steps result (word to.0) (house_of self objects.now list.now) objects.now list.now }
    {
        let answer = self.word_for(objects, to);
        (self, answer)
    }

    fn word_for(&self, objects: &Objects, to: House) -> Answer
        ensures { (ls : Lines) → Gives (is_listed (references_of to.0 (heap_of objects.now))) result (worded to.0 (house_of self.now objects.now ls)) (house_of self.now objects.now ls) (house_of self.now objects.now ls) }
    {
        let from = objects.home();
        // by number: how many houses there are is no house
        if to.0 >= objects.houses() {
            return Err(Refusal::Malformed.into());
        }
        if to == from {
            return Err(Refusal::WrongHouse.into());
        }
        let names = objects.references_of(self.heap, to)?;
        let count = names.len() as u16;
        let bytes = name_bytes(self.heap, &names)?;
        let message = Message::Word {
            from,
            to,
            stamp: self.stamps.seen_from(to),
            objects: Part { at: 9, count },
        };
        Ok(Sent::Word(message, bytes))
    }
}

// The far references that are met from the roots and these names.
fn met_from(heap: Global, objects: &Objects, names: &[Name]) -> Result<Vec<Name>, AllocError>
    ensures names { IfOk result (λ v. numbers v.items ≡ names_in_use (numbers names.now) (heap_of objects.now)) }
    ensures asks { OnErr result (is_listed (names_in_use (numbers names.now) (heap_of objects.now)) ≡ true) }
{
    objects.in_use(heap, names)
}

// Names as a word has them, four bytes each.
fn name_bytes(heap: Global, names: &[Name]) -> Result<Vec<u8>, AllocError>
    ensures bytes { IfOk result (λ v. v.items ≡ bytes_of (numbers names.now)) }
    ensures asks { OnErr result (is_listed (numbers names.now) ≡ true) }
{
    let mut out = Vec::new(heap);
    for name in names {
        out.extend_from_slice(&name.0.to_be_bytes())?;
    }
    Ok(out)
}
