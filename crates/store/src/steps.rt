ghost use Rattle.std.specs.Prelude.{◌≡◌, MatchResult};
ghost use Rattle.objects.specs.Calls.{Unmade};
ghost use Rattle.rules.specs.House.{empty};
ghost use Rattle.rules.specs.Step.{came, event_of};
ghost use Rattle.node.specs.Shown.{Answers};
ghost use Rattle.store.specs.Events.{event_in};
ghost use Rattle.store.specs.Laws.{Lawful};
ghost use Rattle.store.specs.Stores.{house_in};

use crate::event::Event;
use crate::table::Store;
use lines::Lines;
use node::{Answer, Head, Tables};
use objects::{Fault, Objects};
use std::alloc::Global;
use wire::{Call, House};

impl Store {
    /// House `home` of `houses`, with nothing in it. Refused by 1 where there is no such house among at most sixteen; else memory may be wanting.
    /// What is promised of houses that run apart stands here: each is made by this, and then does nothing but `call` and `got`.
    #[tactic(auto, unfolding(lines::specs::Columns::rows))]
    pub fn new(heap: Global, home: House, houses: u8) -> Result<Store, Fault>
        ensures made { MatchResult result (λ s. house_in s ≡ empty home.0 houses) (λ e. Unmade home.0 houses e) }
        ensures lawful { Lawful }
    {
        let objects = Objects::new(heap, home, houses)?;
        Ok(Store {
            heap,
            head: Head::new(heap),
            objects,
            held: [0; 2048],
            holders: [0; 2048],
            stamps: [0; 2048],
            censuses: [0; 2048],
            len: 0,
        })
    }

    // A call of the house's programs, or of its collector. It and `got` do the same but for what they ask of the head: with that in one
    // function of both the head would be moved once more on its way in, and once more out, at every step.
    pub fn call(&mut self, call: Call) -> Answer
        ensures step { Answers result (event_of call) (house_in self.old) (house_in self.new) }
    {
        let head = std::mem::replace(&mut self.head, Head::new(self.heap));
        let mut list = Lines {
            objects: &mut self.held,
            holders: &mut self.holders,
            stamps: &mut self.stamps,
            censuses: &mut self.censuses,
            len: self.len,
            room: 2048,
            home: self.objects.home(),
            houses: self.objects.houses(),
        };
        let mut tables = Tables {
            objects: &mut self.objects,
            list: &mut list,
        };
        let (head, answer) = head.call(&mut tables, call);
        let len = list.len;
        self.len = len;
        self.head = head;
        answer
    }

    // These bytes came to the house, whatever they are.
    pub fn got(&mut self, bytes: &[u8]) -> Answer
        ensures step { Answers result (came bytes.now) (house_in self.old) (house_in self.new) }
    {
        let head = std::mem::replace(&mut self.head, Head::new(self.heap));
        let (home, houses) = (self.objects.home(), self.objects.houses());
        let mut list = Lines {
            objects: &mut self.held,
            holders: &mut self.holders,
            stamps: &mut self.stamps,
            censuses: &mut self.censuses,
            len: self.len,
            room: 2048,
            home,
            houses,
        };
        let mut tables = Tables {
            objects: &mut self.objects,
            list: &mut list,
        };
        let (head, answer) = head.got(&mut tables, bytes);
        let count = list.len;
        self.len = count;
        self.head = head;
        answer
    }

    // Whatever happens at the house.
    pub fn step(&mut self, event: Event) -> Answer
        ensures { Answers result (event_in event.entry) (house_in self.old) (house_in self.new) }
    {
        match event {
            Event::Call(call) => self.call(call),
            Event::Came(bytes) => self.got(bytes),
        }
    }
}
