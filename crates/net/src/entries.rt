ghost use Rattle.std.specs.Prelude.{◌≡◌, ◌<◌, ◌&&◌, ◌||◌, length};
ghost use Rattle.node.specs.Shown.{Answers};
ghost use Rattle.store.specs.Events.{event_in};
ghost use Rattle.play.specs.Play.{put, calls, delivers};
ghost use Rattle.net.specs.Worlds.{houses_of};
ghost use Rattle.net.specs.Nets.{count, world, changed_nothing, faithful, Plays, Forges, Trusts, Promised};

use crate::net::Net;
use crate::played::{Played, Setback};
use crate::sending::{keep, was_sent};
use node::Answer;
use store::{Event, Store};
use wire::{Call, House, Refusal};

// Something happens at house `i` of a row of houses.
fn step_at(houses: &mut [Store], i: usize, event: Event) -> Answer
    requires { i < length houses.old }
    ensures does { Answers result (event_in event.entry) (houses_of houses.old i) (houses_of houses.new i) }
    ensures others { houses_of houses.new ≡ put i (houses_of houses.new i) (houses_of houses.old) }
    ensures long { length houses.new ≡ length houses.old }
{
    houses[i].step(event)
}

impl Net {
    /// A call at a house. Refused by the number that the house gives, by 1 where there is no such house; nothing is changed then, nor where
    /// memory is wanting for the step. Where it is wanting to keep what the house sent, the step is done and its messages are lost.
    pub fn call(&mut self, house: House, call: Call) -> Played
        ensures plays { Plays result (count self.old) (calls house.0 call) (world self.old) (world self.new) }
        ensures faithful { faithful self.new ≡ faithful self.old }
        ensures count { count self.new ≡ count self.old }
        ensures promise { Promised self.new }
    {
        let i = usize::from(house.0);
        if i >= self.houses.len() {
            return Err(Refusal::Malformed.into());
        }
        let answer = step_at(&mut self.houses, i, Event::Call(call));
        keep(self.heap, answer, &mut self.sent)
    }

    /// Message number `message`, counted from 0, comes to a house: at any time, any number of times. Errors as for `call`; where there is no such
    /// message it is refused by 1.
    pub fn deliver(&mut self, house: House, message: usize) -> Played
        ensures plays { Plays result (count self.old) (delivers house.0 message) (world self.old) (world self.new) }
        ensures faithful { faithful self.new ≡ faithful self.old }
        ensures count { count self.new ≡ count self.old }
        ensures promise { Promised self.new }
    {
        let i = usize::from(house.0);
        if i >= self.houses.len() || message >= self.sent.len() {
            return Err(Refusal::Malformed.into());
        }
        let answer = step_at(&mut self.houses, i, Event::Came(&self.sent[message]));
        keep(self.heap, answer, &mut self.sent)
    }

    /// These bytes come to a house, whoever wrote them. They are looked for among all messages; where nobody sent them and the house does not
    /// refuse them, nothing is promised of the net from then on, since a forged message may say anything. Errors as for `deliver`.
    pub fn forge(&mut self, house: House, bytes: &[u8]) -> Played
        ensures acts { Forges result (count self.old) house.0 bytes.now (world self.old) (world self.new) }
        ensures faithful { Trusts result bytes.now (world self.old) (faithful self.old) (faithful self.new) }
        ensures count { count self.new ≡ count self.old }
        ensures promise { Promised self.new }
    {
        let i = usize::from(house.0);
        if i >= self.houses.len() {
            return Err(Refusal::Malformed.into());
        }
        let sent = was_sent(&self.sent, bytes);
        let answer = step_at(&mut self.houses, i, Event::Came(bytes));
        let played = keep(self.heap, answer, &mut self.sent);
        self.faithful = trusts(self.faithful, sent, played);
        played
    }
}

// Whether a net is faithful after bytes that anybody wrote: if it was, and they were sent, or changed nothing.
fn trusts(faithful: bool, sent: bool, played: Played) -> bool
    ensures { result ≡ (faithful && (sent || changed_nothing played)) }
{
    faithful && (sent || matches!(played, Err(Setback::Fault(_))))
}
