ghost use Rattle.std.specs.Prelude.{◌≡◌, ◌+◌, max, is_ok, if◌then◌else◌, slice_index};
ghost use Rattle.lines.specs.Stamping.{stamp as stamped, stamp_at, unstamped, given_to, seen_from, heard_from, with_given, with_seen, with_heard, next_for, seeing, hearing};

use crate::stamps::Stamps;
use wire::{House, Refusal, Stamp};

impl Stamps {
    // Nothing given, seen or heard yet.
    pub fn new() -> Stamps
        ensures { result ≡ unstamped }
    {
        Stamps {
            given: [0; 16],
            seen: [0; 16],
            heard: [0; 16],
        }
    }

    // The highest stamp that came from a house; 0 where none did.
    pub fn seen_from(&self, house: House) -> Stamp
        ensures { result ≡ stamped (seen_from self.now house.0) }
    {
        stamp_of(&self.seen, house)
    }

    // The highest stamp that a house is known to have seen; 0 where it said none.
    pub fn heard_from(&self, house: House) -> Stamp
        ensures { result ≡ stamped (heard_from self.now house.0) }
    {
        stamp_of(&self.heard, house)
    }

    // The stamp that the next reference for a house gets.
    pub fn next_for(&self, house: House) -> Result<Stamp, Refusal>
        ensures { result ≡ next_for house.0 self.now }
    {
        let last = stamp_at(&self.given, house)?;
        let next = last.0.checked_add(1).ok_or(Refusal::OutOfNumbers)?;
        Ok(Stamp(next))
    }

    // A reference is given to a house, with the next stamp.
    pub fn give(&mut self, house: House) -> Result<Stamp, Refusal>
        ensures value { result ≡ next_for house.0 self.old }
        ensures after { self.new ≡ (if is_ok result then with_given self.old house.0 (given_to self.old house.0 + 1) else self.old) }
    {
        let stamp = self.next_for(house)?;
        self.given[usize::from(house.0)] = stamp.0;
        Ok(stamp)
    }

    // A reference came from a house: its stamp has to be above the highest seen.
    pub fn see(&mut self, house: House, stamp: Stamp) -> Result<(), Refusal>
        ensures value { result ≡ seeing house.0 stamp.0 self.old }
        ensures after { self.new ≡ (if is_ok result then with_seen self.old house.0 stamp.0 else self.old) }
    {
        // no `get_mut` here and below: a proof knows no element of what it leaves
        let seen = stamp_at(&self.seen, house)?;
        if stamp <= seen {
            return Err(Refusal::OldStamp);
        }
        self.seen[usize::from(house.0)] = stamp.0;
        Ok(())
    }

    // A house says that it has seen this stamp: the greater of the two is kept.
    pub fn hear(&mut self, house: House, stamp: Stamp) -> Result<(), Refusal>
        ensures value { result ≡ hearing house.0 }
        ensures after { self.new ≡ (if is_ok result then with_heard self.old house.0 (max (heard_from self.old house.0) stamp.0) else self.old) }
    {
        let heard = stamp_at(&self.heard, house)?;
        self.heard[usize::from(house.0)] = stamp.max(heard).0;
        Ok(())
    }
}

// What stands for a house in one of the three rows, of which each has sixteen places.
fn stamp_at(row: &[u32; 16], house: House) -> Result<Stamp, Refusal>
    ensures { result ≡ stamp_at house.0 row.now }
{
    let number = row.get(usize::from(house.0)).ok_or(Refusal::Malformed)?;
    Ok(Stamp(*number))
}

// The same, and 0 for a house that has no place.
fn stamp_of(row: &[u32; 16], house: House) -> Stamp
    ensures { result ≡ stamped (slice_index row.now house.0) }
{
    stamp_at(row, house).unwrap_or(Stamp(0))
}
