ghost use Rattle.std.specs.Prelude.{◌≡◌, ◌<◌, min, true, [], length, IfSome, is_ok, if◌then◌else◌, slice_index};
ghost use Rattle.lines.specs.Columns.{room_in};
ghost use Rattle.lines.specs.Laws.{Kept, Outlives};
ghost use Rattle.lines.specs.Listed.{is_of, place, entered, fits, belongs};
ghost use Rattle.lines.specs.Lists.{lines, row_of, shown, listing, line_at, entering, Lent, Pushed, Changed, Ready};

use crate::line::Line;
use crate::table::Lines;
use wire::{Census, House, Name, Refusal, Stamp};

impl<'a> Lines<'a> {
    // The empty list of house `home` among `houses` houses, sixteen at most, in these columns, with as many places as each has, 2,048 at most.
    pub fn new(
        objects: &'a mut [u32],
        holders: &'a mut [u32],
        stamps: &'a mut [u32],
        censuses: &'a mut [u32],
        home: House,
        houses: u8,
    ) -> Lines<'a>
        ensures empty { lines result ≡ [] }
        ensures len { result.len ≡ 0 }
        ensures room { result.room ≡ room_in objects.old holders.old stamps.old censuses.old }
        ensures home { result.home ≡ home }
        ensures houses { result.houses ≡ min houses 16 }
        ensures same_objects { (result.objects.ghost_name ≡ objects.entry.ghost_name) × (result.objects.now ≡ objects.old) }
        ensures same_holders { (result.holders.ghost_name ≡ holders.entry.ghost_name) × (result.holders.now ≡ holders.old) }
        ensures same_stamps { (result.stamps.ghost_name ≡ stamps.entry.ghost_name) × (result.stamps.now ≡ stamps.old) }
        ensures same_censuses { (result.censuses.ghost_name ≡ censuses.entry.ghost_name) × (result.censuses.now ≡ censuses.old) }
    {
        let room = objects
            .len()
            .min(holders.len())
            .min(stamps.len())
            .min(censuses.len())
            .min(2048);
        let houses = houses.min(16);
        Lines {
            objects,
            holders,
            stamps,
            censuses,
            len: 0,
            room,
            home,
            houses,
        }
    }
}

// An object and a holder are passed side by side, and not as a pair or a line: a caller has them apart, and would only put them together for the call.
impl Lines<'_> {
    // How many lines there are.
    pub fn len(&self) -> usize
        ensures value { result ≡ length (lines self.now) }
        ensures kept { Kept self.now.home.0 self.now.houses (lines self.now) }
    {
        self.len
    }

    // The place of the line of `object` and `holder`.
    pub fn find(&self, object: Name, holder: House) -> Option<usize>
        ensures place { result ≡ place object.0 holder.0 0 (lines self.now) }
        ensures within { IfSome result (λ k. k < self.now.len) }
    {
        (0..self.len).position(|i| self.is_at(i, object, holder))
    }

    // The line at place `i`.
    pub fn line(&self, i: usize) -> Option<Line>
        ensures { result ≡ line_at i (lines self.now) }
    {
        if i >= self.len {
            return None;
        }
        Some(self.row(i))
    }

    // The line of `object` and `holder` is made at the end, or found and changed in place; it gets the stamp and the census.
    // Refused where the object lives elsewhere or the holder is no other house, and where the list is full.
    pub fn enter(
        &mut self,
        object: Name,
        holder: House,
        stamp: Stamp,
        census: Census,
    ) -> Result<(), Refusal>
        ensures value { result ≡ entering self.old.home.0 self.old.houses self.old.room object.0 holder.0 (lines self.old) }
        ensures after { lines self.new ≡ (if is_ok result then entered object.0 holder.0 stamp.0 census.0 (lines self.old) else lines self.old) }
        ensures outlives { is_ok result ≡ true → Outlives object.0 holder.0 stamp.0 census.0 (lines self.new) }
        ensures lent { Lent self.old self.new }
    {
        if !self.takes(object, holder) {
            return Err(Refusal::Malformed);
        }
        let Some(at) = self.find(object, holder) else {
            if self.len >= self.room {
                return Err(Refusal::NoRoom);
            }
            self.push(Line {
                object,
                holder,
                stamp,
                census,
            });
            return Ok(());
        };
        self.change(at, stamp, census);
        Ok(())
    }

    // Whether a line of `object` and `holder` is there already or has room at the end.
    pub fn has_room(&self, object: Name, holder: House) -> bool
        ensures { result ≡ fits object.0 holder.0 (lines self.now) self.now.room }
    {
        self.len < self.room || self.find(object, holder).is_some()
    }

    // Whether the object lives here and the holder is another house.
    fn takes(&self, object: Name, holder: House) -> bool
        ensures { result ≡ belongs self.now.home.0 self.now.houses object.0 holder.0 }
    {
        // the last by number: how many houses there are is no house
        object.home() == self.home && holder != self.home && holder.0 < self.houses
    }

    // Whether the line at place `i` is of `object` and `holder`.
    fn is_at(&self, i: usize, object: Name, holder: House) -> bool
        requires { i < self.now.len }
        ensures { result ≡ is_of object.0 holder.0 (row_of self.now i) }
    {
        // words of the columns against numbers
        self.objects[i] == object.0 && self.holders[i] == u32::from(holder.0)
    }

    // The line at place `i` gets another stamp and another census.
    pub(crate) fn change(&mut self, i: usize, stamp: Stamp, census: Census)
        requires { i < self.old.len }
        ensures changed { Changed self.old i stamp.0 census.0 self.new }
        ensures lent { Lent self.old self.new }
    {
        self.stamps[i] = stamp.0;
        self.censuses[i] = census.0;
    }

    // What stands in place `i` of the columns, taken or not.
    pub(crate) fn row(&self, i: usize) -> Line
        requires within { i < self.now.room }
        requires small { slice_index self.now.holders.now i < 256 }
        ensures { result ≡ shown (row_of self.now i) }
    {
        Line {
            object: Name(self.objects[i]),
            holder: House(self.holders[i] as u8),
            stamp: Stamp(self.stamps[i]),
            census: Census(self.censuses[i]),
        }
    }

    // A new line at the end.
    pub(crate) fn push(&mut self, line: Line)
        requires { Ready self.old (listing line) }
        ensures pushed { Pushed self.old (listing line) self.new }
        ensures lent { Lent self.old self.new }
    {
        let at = self.len;
        self.objects[at] = line.object.0;
        self.holders[at] = u32::from(line.holder.0);
        self.stamps[at] = line.stamp.0;
        self.censuses[at] = line.census.0;
        self.len = at + 1;
    }
}
