ghost use Rattle.std.specs.Prelude.{◌≡◌, if◌then◌else◌, Some, None, option_copied};
ghost use Rattle.text.specs.Words.{words, none};
ghost use Rattle.text.specs.Calls.{command_of, call_of, sole, sole_of, pair_of};

use crate::numbers::FromWord;
use crate::words::{first_word, is_blank};
use wire::Call;

// The first words of calls.
#[derive(Clone, Copy)]
pub enum Command {
    Make,
    Link,
    Unlink,
    Load,
    Drop,
    Ask,
    Collect,
    Word,
    Join,
    Tell,
    Round,
}

pub fn read_command(word: &[u8]) -> Option<Command>
    ensures { result ≡ command_of word.now }
{
    match word {
        b"make" => Some(Command::Make),
        b"link" => Some(Command::Link),
        b"unlink" => Some(Command::Unlink),
        b"load" => Some(Command::Load),
        b"drop" => Some(Command::Drop),
        b"ask" => Some(Command::Ask),
        b"collect" => Some(Command::Collect),
        b"word" => Some(Command::Word),
        b"join" => Some(Command::Join),
        b"tell" => Some(Command::Tell),
        b"round" => Some(Command::Round),
        _ => None,
    }
}

// The only word of a text.
pub fn sole_word(text: &[u8]) -> Option<&[u8]>
    ensures { option_copied result ≡ sole (words text.now) }
{
    let (word, rest) = first_word(text)?;
    is_blank(rest).then_some(word)
}

// What the only word of a text is read as.
pub fn sole<T: FromWord>(text: &[u8]) -> Option<T>
    ensures { result ≡ sole_of T.from_word_gives (words text.now) }
{
    T::from_word(sole_word(text)?)
}

// What the only two words of a text are read as.
fn pair<T: FromWord, U: FromWord>(text: &[u8]) -> Option<(T, U)>
    ensures { result ≡ pair_of T.from_word_gives U.from_word_gives (words text.now) }
{
    let (word, rest) = first_word(text)?;
    Some((T::from_word(word)?, sole(rest)?))
}

// A call by its command and the text after it.
pub fn read_call(command: Command, rest: &[u8]) -> Option<Call>
    ensures { result ≡ call_of command (words rest.now) }
{
    match command {
        Command::Make => sole(rest).map(|number| Call::Make { number }),
        Command::Link => pair(rest).map(|(object, target)| Call::Link { object, target }),
        Command::Unlink => pair(rest).map(|(object, target)| Call::Unlink { object, target }),
        Command::Load => pair(rest).map(|(object, target)| Call::Load { object, target }),
        Command::Drop => sole(rest).map(|object| Call::Drop { object }),
        Command::Ask => pair(rest).map(|(object, to)| Call::Ask { object, to }),
        Command::Collect => only(rest, Call::Collect),
        Command::Word => sole(rest).map(|to| Call::Word { to }),
        Command::Join => sole(rest).map(|census| Call::Join { census }),
        Command::Tell => only(rest, Call::Tell),
        Command::Round => only(rest, Call::Round),
    }
}

// A call that nothing follows.
fn only(rest: &[u8], call: Call) -> Option<Call>
    ensures { result ≡ (if none (words rest.now) then Some call else None) }
{
    is_blank(rest).then_some(call)
}
