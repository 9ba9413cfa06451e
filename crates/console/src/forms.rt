ghost use Rattle.std.specs.Prelude.{◌≡◌, ◌++◌, map, string_bytes, Err, OnOk};
ghost use Rattle.store.specs.Sending.{items_in};
ghost use Rattle.console.specs.Forms.{end_text, sends_to_all, sends_text, message_text, sent_text};

use node::Recipient;
use std::alloc::AllocError;
use wire::{House, Refusal};

/// How a program prints what comes of a line.
#[derive(Clone, Copy, Debug, PartialEq, Eq)]
pub enum Form {
    // a message by its digits, a refusal by its number
    Plain,
    // a refusal by its number and its name
    Named,
    // a message after whom it is sent to, a refusal with its name, and a last line also where nothing is refused
    Framed,
}

// Prints a refusal: by its name too, unless the form is plain.
fn write_refused(form: Form, refusal: Refusal, out: &mut String) -> Result<(), AllocError>
    ensures { OnOk result (string_bytes out.new ≡ string_bytes out.old ++ end_text form (Err refusal)) }
{
    match form {
        Form::Plain => text::write_refusal(refusal, out),
        Form::Named | Form::Framed => text::write_named_refusal(refusal, out),
    }
}

/// Prints what ends the answer to a line: the refusal, if there was one.
pub fn write_end(form: Form, ended: Result<(), Refusal>, out: &mut String) -> Result<(), AllocError>
    ensures { OnOk result (string_bytes out.new ≡ string_bytes out.old ++ end_text form ended) }
{
    match ended {
        Ok(()) if form == Form::Framed => text::write_done(out),
        Ok(()) => Ok(()),
        Err(refusal) => write_refused(form, refusal, out),
    }
}

// A message after each house that there is.
fn write_sends_to_all(houses: u8, bytes: &[u8], out: &mut String) -> Result<(), AllocError>
    ensures { OnOk result (string_bytes out.new ≡ string_bytes out.old ++ sends_to_all houses bytes.now) }
{
    for house in 0..houses {
        text::write_send(House(house), bytes, out)?;
    }
    Ok(())
}

// A message after each house that it is for.
fn write_sends(houses: u8, bytes: &[u8], out: &mut String) -> Result<(), AllocError>
    ensures { OnOk result (string_bytes out.new ≡ string_bytes out.old ++ sends_text houses bytes.now) }
{
    let Ok(read) = wire::read(bytes, houses) else {
        return Ok(());
    };
    match node::goes_to(read.message) {
        Recipient::One(house) => text::write_send(house, bytes, out),
        Recipient::Every => write_sends_to_all(houses, bytes, out),
    }
}

fn write_message(form: Form, houses: u8, bytes: &[u8], out: &mut String) -> Result<(), AllocError>
    ensures { OnOk result (string_bytes out.new ≡ string_bytes out.old ++ message_text form houses bytes.now) }
{
    match form {
        Form::Plain | Form::Named => text::write_message(bytes, out),
        Form::Framed => write_sends(houses, bytes, out),
    }
}

/// Prints the messages that one of so many houses sends, in their order.
pub fn write_sent(
    form: Form,
    houses: u8,
    messages: &[Vec<u8>],
    out: &mut String,
) -> Result<(), AllocError>
    ensures { OnOk result (string_bytes out.new ≡ string_bytes out.old ++ sent_text form houses (map items_in messages.now)) }
{
    for bytes in messages {
        write_message(form, houses, bytes, out)?;
    }
    Ok(())
}
