ghost use Rattle.std.specs.Prelude.{◌≡◌, length};
ghost use Rattle.tables.specs.Shown.{numbers, objects_of};
ghost use Rattle.lines.specs.Lists.{line_at};
ghost use Rattle.rules.specs.House.{census};
ghost use Rattle.store.specs.Stores.{house_in};

use crate::table::Store;
use lines::Line;
use tables::Object;
use wire::{Census, House, Name, RoundNumber, Stamp, Tally};

impl Store {
    // The census that the house is in.
    pub fn census(&self) -> Census
        ensures { result.0 ≡ census (house_in self.now) }
    {
        self.head.census()
    }

    // How many of its lines were newly marked in that census.
    pub fn tally(&self) -> Tally
        ensures { result.0 ≡ (house_in self.now).part.tally }
    {
        self.head.tally()
    }

    /// The number of the present round, which this house has asked; 0 where it has asked none in this census.
    pub fn round_number(&self) -> RoundNumber
        ensures { result.0 ≡ (house_in self.now).desk.round }
    {
        self.head.round_number()
    }

    // The objects, in rising order of their names.
    pub fn objects(&self) -> &[Object]
        ensures { objects_of result.now ≡ (house_in self.now).heap.objects }
    {
        self.objects.objects()
    }

    // The roots, rising.
    pub fn roots(&self) -> &[Name]
        ensures { numbers result.now ≡ (house_in self.now).heap.roots }
    {
        self.objects.roots()
    }

    /// How many lines the list has.
    pub fn line_count(&self) -> usize
        ensures { result ≡ length (house_in self.now).list }
    {
        self.len
    }

    // The line of the list at place `i`. It is read from the columns themselves, since `Lines` can be lent them only to write.
    #[tactic(auto, using(lines::proofs::Rows::line_at_none, lines::proofs::Rows::line_at_row))]
    pub fn line(&self, i: usize) -> Option<Line>
        ensures { result ≡ line_at i (house_in self.now).list }
    {
        if i >= self.len {
            return None;
        }
        Some(Line {
            object: Name(self.held[i]),
            // a word of a column that holds houses
            holder: House(self.holders[i] as u8),
            stamp: Stamp(self.stamps[i]),
            census: Census(self.censuses[i]),
        })
    }
}
