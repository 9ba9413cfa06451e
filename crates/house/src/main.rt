// One house: calls and messages come as lines on standard input, and what it sends goes to standard output.

#![tactic(auto)]

mod help;

use console::{Form, Player, Wanted};
use help::{HELP, USAGE};
use objects::Fault;
use std::alloc::{AllocError, Global};
use std::process::ExitCode;
use store::Store;
use text::{Order, Request, View};
use wire::{House, Refusal};

// The house, which of how many it is, and how it prints.
#[derive(Drop)]
struct Own {
    heap: Global,
    form: Form,
    house: House,
    houses: u8,
    store: Store,
}

impl Own {
    // An order is followed, and what is sent is printed.
    fn follow(&mut self, order: Order, out: &mut String) -> anyhow::Result<Result<(), Refusal>> {
        let answer = console::follow(self.heap, &mut self.store, order)?;
        match console::messages(self.heap, &answer)? {
            Ok(messages) => {
                console::write_sent(self.form, self.houses, &messages, out)?;
                Ok(Ok(()))
            }
            Err(refusal) => Ok(Err(refusal)),
        }
    }

    fn view(&self, view: View, out: &mut String) -> Result<(), AllocError> {
        match view {
            View::Show => console::write_tables(self.house, &self.store, out),
            View::Status => text::write_status(console::status(self.house, &self.store), out),
            View::Help => out.push_str(HELP),
        }
    }

    // What a line says is done; how it ended is not printed yet.
    fn play(&mut self, line: &[u8], out: &mut String) -> anyhow::Result<Result<(), Refusal>> {
        match text::read_line(line) {
            Ok(None) => Ok(Ok(())),
            Ok(Some(Request::Order(order))) => self.follow(order, out),
            Ok(Some(Request::View(view))) => {
                self.view(view, out)?;
                Ok(Ok(()))
            }
            Err(refusal) => Ok(Err(refusal)),
        }
    }
}

impl Player for Own {
    fn answer(&mut self, line: &[u8], out: &mut String) -> anyhow::Result<()> {
        let ended = self.play(line, out)?;
        Ok(console::write_end(self.form, ended, out)?)
    }
}

// The house that these numbers name, if they name one.
fn named(heap: Global, form: Form, numbers: &[u64]) -> Result<Option<Own>, AllocError> {
    let [own, houses] = numbers else {
        return Ok(None);
    };
    let (Ok(own), Ok(houses)) = (u8::try_from(*own), u8::try_from(*houses)) else {
        return Ok(None);
    };
    match Store::new(heap, House(own), houses) {
        Ok(store) => Ok(Some(Own {
            heap,
            form,
            house: House(own),
            houses,
            store,
        })),
        Err(Fault::Refused(_)) => Ok(None),
        Err(Fault::NoMemory) => Err(AllocError),
    }
}

fn play(rt: &HostRuntime, form: Form, numbers: &[u64]) -> anyhow::Result<ExitCode> {
    let Some(mut player) = named(rt.alloc(), form, numbers)? else {
        return console::wrong_arguments(rt, USAGE);
    };
    console::play(rt, &mut player, false)?;
    Ok(ExitCode::SUCCESS)
}

fn main(rt: HostRuntime) -> anyhow::Result<ExitCode> {
    match console::read_arguments(&rt)? {
        Wanted::Help => console::help(&rt, HELP),
        Wanted::Version => console::version(&rt, "house"),
        Wanted::Play(form, numbers) => play(&rt, form, &numbers),
        Wanted::Nothing => console::wrong_arguments(&rt, USAGE),
    }
}
