ghost use Rattle.std.specs.Prelude.{◌≡◌, option_map};
ghost use Rattle.text.specs.Words.{words, NoneEmpty};
ghost use Rattle.text.specs.Lines.{said, order_of, comment, view_of, requested, request_of, line_said, line_of, played, by_word_at_house, at_house, by_other_word, by_word, play_said, play_of};

use crate::calls::{read_call, read_command, sole, sole_word};
use crate::numbers::FromWord;
use crate::words::{first_word, is_blank};
use wire::{Call, House, Refusal};

// What a house is told.
#[derive(Clone, Copy)]
pub enum Order<'a> {
    Call(Call),
    // a message that came, in hexadecimal digits
    Got(&'a [u8]),
}

/// What is printed on request, and changes nothing.
#[derive(Clone, Copy, Debug, PartialEq, Eq)]
pub enum View {
    // the tables, line by line
    Show,
    // the census, how far it has come, and how full the tables are
    Status,
    // the lines that the program takes
    Help,
}

/// A line of the program `house`.
#[derive(Clone, Copy)]
pub enum Request<'a> {
    Order(Order<'a>),
    View(View),
}

// A line of a rehearsal.
#[derive(Clone, Copy)]
pub enum Play<'a> {
    At(House, Order<'a>),
    // this message, counted from 1, comes to the house
    DeliverAt(House, u64),
    // it comes to whom it is for
    Deliver(u64),
    View(View),
    // the collector frees all that does not matter
    Settle,
}

fn read_order<'a>(word: &'a [u8], rest: &'a [u8]) -> Option<Order<'a>>
    ensures { option_map said result ≡ order_of word.now (words rest.now) }
{
    match word {
        b"got" => Some(Order::Got(sole_word(rest)?)),
        _ => Some(Order::Call(read_call(read_command(word)?, rest)?)),
    }
}

fn read_view(word: &[u8]) -> Option<View>
    ensures { result ≡ view_of word.now }
{
    match word {
        b"show" => Some(View::Show),
        b"status" => Some(View::Status),
        b"help" => Some(View::Help),
        _ => None,
    }
}

fn read_request<'a>(word: &'a [u8], rest: &'a [u8]) -> Option<Request<'a>>
    ensures { option_map requested result ≡ request_of word.now (words rest.now) }
{
    match read_view(word) {
        Some(view) => is_blank(rest).then_some(Request::View(view)),
        None => Some(Request::Order(read_order(word, rest)?)),
    }
}

// Whether a line that begins with this word is a comment.
fn is_comment(word: &[u8]) -> bool
    ensures { result ≡ comment word.now }
{
    matches!(word, [b'#', ..])
}

/// A line of the program `house`, which says nothing where it is empty or a comment.
pub fn read_line(text: &[u8]) -> Result<Option<Request<'_>>, Refusal>
    ensures value { line_said result ≡ line_of (words text.now) }
    ensures full { NoneEmpty }
{
    match first_word(text) {
        Some((word, rest)) if !is_comment(word) => {
            read_request(word, rest).map(Some).ok_or(Refusal::Malformed)
        }
        _ => Ok(None),
    }
}

fn by_word_at_house<'a>(house: House, word: &'a [u8], rest: &'a [u8]) -> Option<Play<'a>>
    ensures { option_map played result ≡ by_word_at_house house word.now (words rest.now) }
{
    match word {
        b"deliver" => Some(Play::DeliverAt(house, sole(rest)?)),
        _ => Some(Play::At(house, read_order(word, rest)?)),
    }
}

// What is to happen at one house of a rehearsal.
fn at_house<'a>(house: House, text: &'a [u8]) -> Option<Play<'a>>
    ensures { option_map played result ≡ at_house house (words text.now) }
{
    let (word, rest) = first_word(text)?;
    by_word_at_house(house, word, rest)
}

fn by_other_word<'a>(word: &'a [u8], rest: &'a [u8]) -> Option<Play<'a>>
    ensures { option_map played result ≡ by_other_word word.now (words rest.now) }
{
    match word {
        b"settle" => is_blank(rest).then_some(Play::Settle),
        b"deliver" => Some(Play::Deliver(sole(rest)?)),
        _ => at_house(House::from_word(word)?, rest),
    }
}

fn by_word<'a>(word: &'a [u8], rest: &'a [u8]) -> Option<Play<'a>>
    ensures { option_map played result ≡ by_word word.now (words rest.now) }
{
    match read_view(word) {
        Some(view) => is_blank(rest).then_some(Play::View(view)),
        None => by_other_word(word, rest),
    }
}

// A line of the program `rehearse`, which says nothing where it is empty or a comment. It is `read_line` but for what the words say:
// with the reader of the words as a parameter the contract would have to say what that one ensures, and be longer than both.
pub fn read_play(text: &[u8]) -> Result<Option<Play<'_>>, Refusal>
    ensures value { play_said result ≡ play_of (words text.now) }
    ensures full { NoneEmpty }
{
    match first_word(text) {
        Some((word, rest)) if !is_comment(word) => {
            by_word(word, rest).map(Some).ok_or(Refusal::Malformed)
        }
        _ => Ok(None),
    }
}
