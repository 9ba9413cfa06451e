use objects::Fault;
use wire::{Census, House, Message, Name};

// The messages that a step sends.
#[derive(Drop)]
pub enum Sent {
    Nothing,
    One(Message),
    // a word with its objects, as bytes
    Word(Message, Vec<u8>),
    // a telling of each of these
    Tellings(Census, House, Vec<Name>),
}

// How a step ended: what it sends, or why nothing was done.
pub type Answer = Result<Sent, Fault>;

// Whom a message is for. No Option<House>: its None would read as nobody.
#[derive(Clone, Copy)]
pub enum Recipient {
    One(House),
    Every,
}
