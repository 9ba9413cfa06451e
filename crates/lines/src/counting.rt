ghost use Rattle.std.specs.Prelude.{◌≡◌, ◌<◌, ◌≤◌, not, ◌&&◌, map, take, ◌==◌, nat_lt, slice_index};
ghost use Rattle.std.specs.List.{filter};
ghost use Rattle.wire.specs.Names.{name};
ghost use Rattle.lines.specs.Laws.{Raises, LeavesUnheard};
ghost use Rattle.lines.specs.Listed.{listed, listed_in, joined, marked, swept, objects_listed, objects_in};
ghost use Rattle.lines.specs.Lists.{lines, Decides, Lent, Numbered};
ghost use Rattle.lines.specs.Stamping.{heard_from};

use crate::line::Line;
use crate::stamps::Stamps;
use crate::table::Lines;
use wire::{Census, House, Name};

impl Lines<'_> {
    // A census begins: every line with a stamp above what is heard of its holder gets its number, since that reference may still be on its way.
    pub fn join(&mut self, census: Census, stamps: &Stamps)
        ensures after { lines self.new ≡ joined census.0 (heard_from stamps.now) (lines self.old) }
        ensures raises { Raises census.0 (lines self.old) (lines self.new) }
        ensures lent { Lent self.old self.new }
    {
        // by place: a line is read in four columns and written in one, and what `iter_mut` leaves in a column no proof knows
        for i in 0..self.len {
            let line = self.row(i);
            if is_unheard(line, stamps) {
                self.renumber(i, census);
            }
        }
    }

    // The line of `object` and `holder`, if there is one, gets the number; whether there was one that had another.
    pub fn mark(&mut self, object: Name, holder: House, census: Census) -> bool
        ensures value { result ≡ (listed object.0 holder.0 (lines self.old) && not (listed_in census.0 object.0 holder.0 (lines self.old))) }
        ensures after { lines self.new ≡ marked census.0 object.0 holder.0 (lines self.old) }
        ensures lent { Lent self.old self.new }
    {
        let Some(at) = self.find(object, holder) else {
            return false;
        };
        self.renumber(at, census)
    }

    // The line at place `i` gets the number; whether it had another.
    fn renumber(&mut self, i: usize, census: Census) -> bool
        requires { i < self.old.len }
        ensures value { result ≡ not (slice_index self.old.censuses.now i == census.0) }
        ensures numbered { Numbered self.old i census.0 self.new }
        ensures lent { Lent self.old self.new }
    {
        let other = Census(self.censuses[i]) != census;
        self.censuses[i] = census.0;
        other
    }

    // Whether `holder` holds `object` by a line with this number.
    pub fn is_held(&self, object: Name, holder: House, census: Census) -> bool
        ensures { result ≡ listed_in census.0 object.0 holder.0 (lines self.now) }
    {
        let Some(at) = self.find(object, holder) else {
            return false;
        };
        Census(self.censuses[at]) == census
    }

    // The objects of all lines, in their order, are written to the front of `into`; how many there are. No slice of it: what is left
    // in the buffer once that is gone, no proof knows.
    pub fn objects(&self, into: &mut [Name; 2048]) -> usize
        ensures within { result ≤ 2048 }
        ensures after { take result into.new ≡ map name (objects_listed (lines self.now)) }
    {
        self.objects_where(|_| true, into)
    }

    // The same of the lines with this number.
    pub fn objects_in(&self, census: Census, into: &mut [Name; 2048]) -> usize
        ensures within { result ≤ 2048 }
        ensures after { take result into.new ≡ map name (objects_in census.0 (lines self.now)) }
    {
        self.objects_where(|line| line.census == census, into)
    }

    // The objects of the lines that pass the test, in their order, are written to the front of `into`; how many there are.
    fn objects_where<F: Fn(Line) -> bool>(&self, takes: F, into: &mut [Name; 2048]) -> usize
        requires { F.IsAlwaysCallable takes }
        ensures within { result ≤ 2048 }
        ensures after { (p : _) → Decides (F.post takes) p → take result into.new ≡ map (λ e. name e.object) (filter p (lines self.now)) }
    {
        let mut count = 0;
        // by place: a line's parts lie in four columns, so an iterator of lines would count places too
        for i in 0..self.len {
            let line = self.row(i);
            if takes(line) {
                into[count] = line.object;
                count += 1;
            }
        }
        count
    }

    // Lines with another number go, the others close up in order.
    pub fn sweep(&mut self, census: Census)
        ensures after { lines self.new ≡ swept census.0 (lines self.old) }
        ensures leaves { LeavesUnheard census.0 (lines self.old) (lines self.new) }
        ensures lent { Lent self.old self.new }
    {
        self.retain(|line| line.census == census);
    }

    // The lines that pass the test stay, and close up in order.
    pub(crate) fn retain<F: Fn(Line) -> bool>(&mut self, stays: F)
        requires { F.IsAlwaysCallable stays }
        ensures after { (p : _) → Decides (F.post stays) p → lines self.new ≡ filter p (lines self.old) }
        ensures lent { Lent self.old self.new }
    {
        let len = self.len;
        self.len = 0;
        // by place, as `Vec::retain`: what is read and what is written lie in the same columns
        for i in 0..len {
            let line = self.row(i);
            if stays(line) {
                self.push(line);
            }
        }
    }
}

// Whether the holder is not known to have seen the stamp of this line.
fn is_unheard(line: Line, stamps: &Stamps) -> bool
    ensures { result ≡ nat_lt (heard_from stamps.now line.holder.0) line.stamp.0 }
{
    line.stamp > stamps.heard_from(line.holder)
}
