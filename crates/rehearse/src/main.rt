// Up to four houses in one process, with standard input as the network between them.

#![tactic(auto)]

mod help;

use console::{Form, Player, Wanted};
use help::{HELP, USAGE};
use net::{Net, Played, Setback};
use node::Recipient;
use objects::Fault;
use std::alloc::{AllocError, Global};
use std::fmt::Write;
use std::process::ExitCode;
use text::{Order, Play, View};
use wire::{House, Refusal};

// The net, how many of its messages were printed, and how a refusal is.
#[derive(Drop)]
struct Rehearsal {
    heap: Global,
    form: Form,
    net: Net,
    printed: usize,
}

// The place of a message that is counted from 1.
fn place(number: u64) -> Option<usize> {
    usize::try_from(number.checked_sub(1)?).ok()
}

impl Rehearsal {
    fn refuse(&self, refusal: Refusal, out: &mut String) -> anyhow::Result<()> {
        Ok(console::write_end(self.form, Err(refusal), out)?)
    }

    // What was sent since is printed with its numbers, or why nothing was done.
    fn report(&mut self, played: Played, out: &mut String) -> anyhow::Result<()> {
        match played {
            Ok(()) => self.print_sent(out)?,
            Err(Setback::Fault(Fault::Refused(refusal))) => self.refuse(refusal, out)?,
            Err(Setback::Fault(Fault::NoMemory) | Setback::Lost) => return Err(AllocError.into()),
        }
        Ok(())
    }

    fn print_sent(&mut self, out: &mut String) -> Result<(), AllocError> {
        let sent = self.net.messages();
        for (number, bytes) in (1u64..).zip(sent).skip(self.printed) {
            write!(out, "{number} ")?;
            text::write_hex(bytes, out)?;
            out.push('\n')?;
        }
        self.printed = sent.len();
        Ok(())
    }

    // A house does what it is told. Bytes that come as digits may be anybody's.
    fn follow(&mut self, house: House, order: Order, out: &mut String) -> anyhow::Result<()> {
        let played = match order {
            Order::Call(call) => self.net.call(house, call),
            Order::Got(digits) => match text::read_hex(self.heap, digits)? {
                Some(bytes) => self.net.forge(house, &bytes),
                None => return self.refuse(Refusal::Malformed, out),
            },
        };
        self.report(played, out)
    }

    fn deliver_at(&mut self, house: House, number: u64, out: &mut String) -> anyhow::Result<()> {
        let Some(message) = place(number) else {
            return self.refuse(Refusal::Malformed, out);
        };
        let played = self.net.deliver(house, message);
        self.report(played, out)
    }

    // Whom a message is for.
    fn recipient(&self, number: u64) -> Option<Recipient> {
        self.net.recipient(place(number)?)
    }

    // A message comes to whom it is for, or to each house in order.
    fn deliver(&mut self, number: u64, out: &mut String) -> anyhow::Result<()> {
        match self.recipient(number) {
            Some(Recipient::One(house)) => self.deliver_at(house, number, out),
            Some(Recipient::Every) => {
                for house in (0..self.net.count()).map(House) {
                    self.deliver_at(house, number, out)?;
                }
                Ok(())
            }
            None => self.refuse(Refusal::Malformed, out),
        }
    }

    // The collector frees all that does not matter, and what it sent is printed.
    fn settle(&mut self, out: &mut String) -> anyhow::Result<()> {
        let played = self.net.settle();
        self.report(played.map_err(Setback::from), out)
    }

    fn show(&self, out: &mut String) -> Result<(), AllocError> {
        for (number, store) in (0..).zip(self.net.houses()) {
            console::write_tables(House(number), store, out)?;
        }
        Ok(())
    }

    fn status(&self, out: &mut String) -> Result<(), AllocError> {
        for (number, store) in (0..).zip(self.net.houses()) {
            text::write_status(console::status(House(number), store), out)?;
        }
        Ok(())
    }

    fn view(&self, view: View, out: &mut String) -> Result<(), AllocError> {
        match view {
            View::Show => self.show(out),
            View::Status => self.status(out),
            View::Help => out.push_str(HELP),
        }
    }
}

impl Player for Rehearsal {
    fn answer(&mut self, line: &[u8], out: &mut String) -> anyhow::Result<()> {
        match text::read_play(line) {
            Ok(None) => {}
            Ok(Some(Play::At(house, order))) => self.follow(house, order, out)?,
            Ok(Some(Play::DeliverAt(house, message))) => self.deliver_at(house, message, out)?,
            Ok(Some(Play::Deliver(message))) => self.deliver(message, out)?,
            Ok(Some(Play::View(view))) => self.view(view, out)?,
            Ok(Some(Play::Settle)) => self.settle(out)?,
            Err(refusal) => self.refuse(refusal, out)?,
        }
        Ok(())
    }
}

// As many empty houses as the number says. One answer here may be of several houses, so there is no framed form.
fn empty(heap: Global, form: Form, numbers: &[u64]) -> anyhow::Result<Option<Rehearsal>> {
    let ([count], Form::Plain | Form::Named) = (numbers, form) else {
        return Ok(None);
    };
    let Ok(count @ 1..=4) = u8::try_from(*count) else {
        return Ok(None);
    };
    match Net::new(heap, count) {
        Ok(net) => Ok(Some(Rehearsal {
            heap,
            form,
            net,
            printed: 0,
        })),
        Err(Fault::Refused(_)) => Ok(None),
        Err(Fault::NoMemory) => Err(AllocError.into()),
    }
}

fn play(rt: &HostRuntime, form: Form, numbers: &[u64]) -> anyhow::Result<ExitCode> {
    let Some(mut player) = empty(rt.alloc(), form, numbers)? else {
        return console::wrong_arguments(rt, USAGE);
    };
    console::play(rt, &mut player, true)?;
    Ok(ExitCode::SUCCESS)
}

fn main(rt: HostRuntime) -> anyhow::Result<ExitCode> {
    match console::read_arguments(&rt)? {
        Wanted::Help => console::help(&rt, HELP),
        Wanted::Version => console::version(&rt, "rehearse"),
        Wanted::Play(form, numbers) => play(&rt, form, &numbers),
        Wanted::Nothing => console::wrong_arguments(&rt, USAGE),
    }
}
