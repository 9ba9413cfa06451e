ghost use Rattle.objects.specs.Calls.{heap_of};
ghost use Rattle.objects.specs.Laws.{Lasting};
ghost use Rattle.tables.specs.Met.{Collected};
ghost use Rattle.tables.specs.Shown.{numbers};

use crate::store::Objects;
use tables::close_up;
use wire::Name;

impl Objects {
    // Frees the objects that are not met from the roots and the listed names.
    pub fn collect(&mut self, listed: &[Name])
        ensures done { Collected (heap_of self.old) (numbers listed.now) (heap_of self.new) }
        ensures lasting { Lasting (heap_of self.old) (numbers listed.now) (heap_of self.new) }
    {
        let marks = self.met(listed);
        let kept = close_up(&mut self.objects, &marks);
        self.objects.truncate(kept);
    }
}
