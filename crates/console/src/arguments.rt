use crate::forms::Form;
use std::alloc::Global;
use std::env;
use std::io::ErrorKind;
use text::Argument;

/// What a program is to do, by its arguments.
#[derive(Drop)]
pub enum Wanted {
    Help,
    Version,
    // to play in this form, with these numbers
    Play(Form, Vec<u64>),
    // the arguments are wrong
    Nothing,
}

// What the arguments so far say.
#[derive(Drop)]
struct Given {
    help: bool,
    version: bool,
    names: bool,
    framed: bool,
    wrong: bool,
    numbers: Vec<u64>,
}

impl Given {
    fn new(heap: Global) -> Given {
        Given {
            help: false,
            version: false,
            names: false,
            framed: false,
            wrong: false,
            numbers: Vec::new(heap),
        }
    }

    fn note(&mut self, word: &[u8]) -> anyhow::Result<()> {
        match text::read_argument(word) {
            Some(Argument::Help) => self.help = true,
            Some(Argument::Version) => self.version = true,
            Some(Argument::Names) => self.names = true,
            Some(Argument::Framed) => self.framed = true,
            Some(Argument::Number(number)) => self.numbers.push(number)?,
            None => self.wrong = true,
        }
        Ok(())
    }

    // Whoever wants the help gets it, whatever else is said.
    fn says(self) -> Wanted {
        if self.help {
            Wanted::Help
        } else if self.version {
            Wanted::Version
        } else if self.wrong {
            Wanted::Nothing
        } else if self.framed {
            Wanted::Play(Form::Framed, self.numbers)
        } else if self.names {
            Wanted::Play(Form::Named, self.numbers)
        } else {
            Wanted::Play(Form::Plain, self.numbers)
        }
    }
}

/// Reads the arguments: options, in any place, and decimal numbers.
pub fn read_arguments(rt: &HostRuntime) -> anyhow::Result<Wanted> {
    let given = match env::args(rt) {
        Ok(given) => given,
        // one of them is no text
        Err(error) if error.kind() == ErrorKind::InvalidData => return Ok(Wanted::Nothing),
        Err(error) => return Err(error.into()),
    };
    let mut noted = Given::new(rt.alloc());
    for argument in given.skip(1) {
        noted.note(argument.as_bytes())?;
    }
    Ok(noted.says())
}
