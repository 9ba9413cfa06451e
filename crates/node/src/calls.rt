ghost use Rattle.std.specs.Prelude.{◌≡◌};
ghost use Rattle.rules.specs.Step.{make, link, unlink, load, drop, ask};
ghost use Rattle.node.specs.Shown.{house_of, Steps, quieted};

use crate::head::Head;
use crate::sent::{Answer, Sent};
use lines::Lines;
use objects::Objects;
use wire::{House, Message, Name, Refusal};

// A call that sends nothing.
pub(crate) fn quiet(res: Result<(), Refusal>) -> Answer
    ensures { result ≡ quieted res }
{
    res?;
    Ok(Sent::Nothing)
}

// These calls ask for no tie between objects and list, so they take the two as they are. `link`, `unlink` and `load` are a line each:
// one method with a closure would have to say for each event what the closure does.
impl Head {
    pub fn make(self, objects: &mut Objects, list: &Lines, number: u64) -> (Head, Answer)
        ensures { Steps result (make number) (house_of self objects.old list.now) objects.new list.now }
    {
        (self, quiet(objects.make(number).map(|_| ())))
    }

    pub fn link(
        self,
        objects: &mut Objects,
        list: &Lines,
        object: Name,
        target: Name,
    ) -> (Head, Answer)
        ensures { Steps result (link object.0 target.0) (house_of self objects.old list.now) objects.new list.now }
    {
        (self, quiet(objects.link(object, target)))
    }

    pub fn unlink(
        self,
        objects: &mut Objects,
        list: &Lines,
        object: Name,
        target: Name,
    ) -> (Head, Answer)
        ensures { Steps result (unlink object.0 target.0) (house_of self objects.old list.now) objects.new list.now }
    {
        (self, quiet(objects.unlink(object, target)))
    }

    pub fn load(
        self,
        objects: &mut Objects,
        list: &Lines,
        object: Name,
        target: Name,
    ) -> (Head, Answer)
        ensures { Steps result (load object.0 target.0) (house_of self objects.old list.now) objects.new list.now }
    {
        (self, quiet(objects.load(object, target)))
    }

    pub fn release(self, objects: &mut Objects, list: &Lines, object: Name) -> (Head, Answer)
        ensures { Steps result (drop object.0) (house_of self objects.old list.now) objects.new list.now }
    {
        (self, quiet(objects.release(object)))
    }

    // A root is to be handed to house `to`: its home is asked to.
    pub fn ask(self, objects: &Objects, list: &Lines, object: Name, to: House) -> (Head, Answer)
        ensures { Steps result (ask object.0 to.0) (house_of self objects.now list.now) objects.now list.now }
    {
        // by number: how many houses there are is no house
        let houses = objects.houses();
        if !object.is_well_formed(houses) || to.0 >= houses {
            return (self, Err(Refusal::Malformed.into()));
        }
        if !objects.is_root(object) {
            return (self, Err(Refusal::NotRoot.into()));
        }
        let by = objects.home();
        (self, Ok(Sent::One(Message::Ask { object, by, to })))
    }
}
