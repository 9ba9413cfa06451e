ghost use Rattle.std.specs.Prelude.{◌≡◌, ◌++◌, string_bytes, OnOk};
ghost use Rattle.text.specs.Output.{chomped, message_line, send_line, done_line};

use crate::hex::write_hex;
use std::alloc::AllocError;
use std::fmt::Write;
use wire::House;

/// A line without the newline that ends it.
pub fn chomp(line: &[u8]) -> &[u8]
    ensures { result.now ≡ chomped line.now }
{
    match line {
        [text @ .., b'\n'] => text,
        _ => line,
    }
}

/// The line of a message that is sent.
pub fn write_message(bytes: &[u8], out: &mut String) -> Result<(), AllocError>
    ensures { OnOk result (string_bytes out.new ≡ string_bytes out.old ++ message_line bytes.now) }
{
    write_hex(bytes, out)?;
    out.push('\n')
}

/// The line of a message that is sent to this house.
pub fn write_send(to: House, bytes: &[u8], out: &mut String) -> Result<(), AllocError>
    ensures { OnOk result (string_bytes out.new ≡ string_bytes out.old ++ send_line to bytes.now) }
{
    write!(out, "send {to} ")?;
    write_message(bytes, out)
}

/// The line that ends an answer where nothing was refused.
pub fn write_done(out: &mut String) -> Result<(), AllocError>
    ensures { OnOk result (string_bytes out.new ≡ string_bytes out.old ++ done_line) }
{
    out.push_str("ok\n")
}
