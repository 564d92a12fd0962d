ghost use Rattle.std.specs.Prelude.{◌≡◌, ◌<◌, OnOk};
ghost use Rattle.std.specs.Bool.{OnTrue};
ghost use Rattle.std.specs.Char.{digit_char};
ghost use Rattle.json.specs.Print.{escape, escape_byte, escape_letter};
ghost use Rattle.ante_pack.specs.Adds.{Adds};

use ante_pack::Bytes;
use std::alloc::{AllocError, Global};

/// Appends a text with the escapes that JSON asks for: of quotes, backslashes and control characters.
pub fn put_escaped(alloc: Global, out: &mut Bytes, text: &[u8]) -> Result<(), AllocError>
    ensures { OnOk result (Adds out.old out.new (escape text.now)) }
{
    if is_plain(text) {
        return put_plain(alloc, out, text);
    }
    put_each(alloc, out, text)
}

fn put_plain(alloc: Global, out: &mut Bytes, text: &[u8]) -> Result<(), AllocError>
    ensures { OnOk result (Adds out.old out.new text.now) }
{
    out.append(alloc, text)
}

fn put_each(alloc: Global, out: &mut Bytes, text: &[u8]) -> Result<(), AllocError>
    ensures { OnOk result (Adds out.old out.new (escape text.now)) }
{
    for byte in text {
        put_byte(alloc, out, *byte)?;
    }
    Ok(())
}

/// Whether nothing in the text is escaped.
fn is_plain(text: &[u8]) -> bool
    ensures { OnTrue result (escape text.now ≡ text.now) }
{
    for byte in text {
        if *byte < 32 || letter_of(*byte) != 0 {
            return false;
        }
    }
    true
}

/// The letter of the short escape, or 0 where there is none.
fn letter_of(byte: u8) -> u8
    ensures { result ≡ escape_letter byte }
{
    match byte {
        b'"' | b'\\' => byte,
        8 => b'b',
        12 => b'f',
        b'\n' => b'n',
        b'\r' => b'r',
        b'\t' => b't',
        _ => 0,
    }
}

fn digit_of(value: u8) -> u8
    requires { value < 16 }
    ensures { result ≡ digit_char value }
{
    if value < 10 {
        b'0' + value
    } else {
        b'a' + (value - 10)
    }
}

#[tactic(auto, unfolding(json::specs::Print::escape_byte))]
fn put_byte(alloc: Global, out: &mut Bytes, byte: u8) -> Result<(), AllocError>
    ensures { OnOk result (Adds out.old out.new (escape_byte byte)) }
{
    let letter = letter_of(byte);
    if 0 < letter {
        return out.append(alloc, &[b'\\', letter]);
    }
    if byte < 32 {
        return out.append(
            alloc,
            &[
                b'\\',
                b'u',
                b'0',
                b'0',
                digit_of(byte / 16),
                digit_of(byte % 16),
            ],
        );
    }
    out.append(alloc, &[byte])
}
