ghost use Rattle.std.specs.Prelude.{◌≡◌};
ghost use Rattle.text.specs.Arguments.{option_of, argument_of};

use crate::numbers::decimal_value;

/// One argument of a program.
#[derive(Clone, Copy, Debug, PartialEq, Eq)]
pub enum Argument {
    // the help is printed, and nothing is played
    Help,
    // what the program is, and which kit it was proved with
    Version,
    // a refusal is printed with its name
    Names,
    // each line is answered by lines of which the last is known
    Framed,
    Number(u64),
}

fn read_option(word: &[u8]) -> Option<Argument>
    ensures { result ≡ option_of word.now }
{
    match word {
        b"--help" => Some(Argument::Help),
        b"--version" => Some(Argument::Version),
        b"--names" => Some(Argument::Names),
        b"--framed" => Some(Argument::Framed),
        _ => None,
    }
}

/// What an argument says: one of the options, or a decimal number.
pub fn read_argument(word: &[u8]) -> Option<Argument>
    ensures { result ≡ argument_of word.now }
{
    match read_option(word) {
        Some(option) => Some(option),
        None => decimal_value(word).map(Argument::Number),
    }
}
