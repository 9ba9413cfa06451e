ghost use Rattle.std.specs.Prelude.{◌≡◌};
ghost use Rattle.lines.specs.Stamping.{unstamped};
ghost use Rattle.census.specs.Model.{fresh};
ghost use Rattle.census.specs.Standings.{part_of};
ghost use Rattle.rounds.specs.Model.{idle};
ghost use Rattle.rounds.specs.Shown.{desk_of};
ghost use Rattle.rules.specs.Laws.{Lawful};
ghost use Rattle.rules.specs.Step.{event_of};
ghost use Rattle.node.specs.Shown.{allocates, by, Does};

use crate::head::Head;
use crate::lent::Tables;
use crate::sent::Answer;
use census::Standing;
use lines::Stamps;
use rounds::Desk;
use std::alloc::Global;
use wire::{Call, Census, RoundNumber, Tally};

impl Head {
    // Nothing given, seen, heard or told yet.
    pub fn new(heap: Global) -> Head
        ensures stamps { result.stamps ≡ unstamped }
        ensures part { part_of result.standing ≡ fresh 0 }
        ensures desk { desk_of result.desk ≡ idle }
        ensures lawful { Lawful }
    {
        Head {
            heap,
            stamps: Stamps::new(),
            standing: Standing::new(heap),
            desk: Desk::new(),
        }
    }

    // The census that the house is in.
    pub fn census(&self) -> Census
        ensures { result.0 ≡ (part_of self.now.standing).census }
    {
        self.standing.census()
    }

    // How many of its lines were newly marked in that census.
    pub fn tally(&self) -> Tally
        ensures { result.0 ≡ (part_of self.now.standing).tally }
    {
        self.standing.tally()
    }

    /// The number of the present round, which this house has asked; 0 where it has asked none in this census.
    pub fn round_number(&self) -> RoundNumber
        ensures { result.0 ≡ (desk_of self.now.desk).round }
    {
        self.desk.number()
    }

    // A call of the house's programs, or of its collector.
    pub fn call(self, tables: &mut Tables, call: Call) -> (Head, Answer)
        ensures { Does (allocates (event_of call)) (by (event_of call)) self tables.old result tables.new }
    {
        match call {
            Call::Make { number } => self.make(tables.objects, tables.list, number),
            Call::Link { object, target } => self.link(tables.objects, tables.list, object, target),
            Call::Unlink { object, target } => self.unlink(
                tables.objects,
                tables.list,
                object,
                target,
            ),
            Call::Load { object, target } => self.load(tables.objects, tables.list, object, target),
            Call::Drop { object } => self.release(tables.objects, tables.list, object),
            Call::Ask { object, to } => self.ask(tables.objects, tables.list, object, to),
            Call::Collect => self.collect(tables.objects, tables.list),
            Call::Word { to } => self.word(tables.objects, tables.list, to),
            Call::Join { census } => self.join(tables.objects, tables.list, census),
            Call::Tell => self.tell(tables),
            Call::Round => self.round(tables.objects, tables.list),
        }
    }
}
