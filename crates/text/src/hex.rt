ghost use Rattle.std.specs.Prelude.{◌≡◌, ◌<◌, ◌%◌, true, ◌++◌, length, string_bytes, is_ok, IfOk, OnOk};
ghost use Rattle.text.specs.Hex.{byte_of, hex_of, items_of, char_of, hex_text, ReadsBack};

use std::alloc::{AllocError, Global};

// The byte that two hexadecimal digits spell, in either case.
fn byte(high: u8, low: u8) -> Option<u8>
    ensures { result ≡ byte_of high low }
{
    let high = char::from(high).to_digit(16)?;
    let low = char::from(low).to_digit(16)?;
    u8::try_from(high * 16 + low).ok()
}

// The bytes that hexadecimal digits spell, or none where they are odd in number, for which no memory is asked for, or not all digits.
pub fn read_hex(heap: Global, digits: &[u8]) -> Result<Option<Vec<u8>>, AllocError>
    ensures value { IfOk result (λ o. items_of o ≡ hex_of digits.now) }
    ensures odd { length digits.now % 2 ≡ 1 → is_ok result ≡ true }
{
    let (pairs, rest) = digits.as_chunks::<2>();
    if !rest.is_empty() {
        return Ok(None);
    }
    let mut out = Vec::new(heap);
    for [high, low] in pairs {
        let Some(byte) = byte(*high, *low) else {
            return Ok(None);
        };
        out.push(byte)?;
    }
    Ok(Some(out))
}

fn digit(n: u8) -> char
    requires { n < 16 }
    ensures { result ≡ char_of n }
{
    char::from_digit(u32::from(n), 16).unwrap_or('0')
}

// Appends each byte as two hexadecimal digits. Not by `{byte:02x}`, which takes five times as long, and all that is sent is printed by this.
pub fn write_hex(bytes: &[u8], out: &mut String) -> Result<(), AllocError>
    ensures text { OnOk result (string_bytes out.new ≡ string_bytes out.old ++ hex_text bytes.now) }
    ensures read_back { ReadsBack }
{
    for byte in bytes {
        out.push(digit(byte / 16))?;
        out.push(digit(byte % 16))?;
    }
    Ok(())
}
