//! Strings of JSON.

use bt_text::Bytes;
use std::alloc::AllocError;

/// The digit of a number below 16.
fn hex(number: u8) -> u8 {
    if number < 10 {
        b'0'.saturating_add(number)
    } else {
        (b'a' - 10).saturating_add(number)
    }
}

/// Appends a byte of a string: as it is, if JSON allows that.
fn append_byte(text: &mut Bytes, byte: u8, is_plain: bool) -> Result<(), AllocError> {
    match byte {
        b'"' => text.append(b"\\\""),
        b'\\' => text.append(b"\\\\"),
        b' '..=b'~' => text.append(&[byte]),
        _ => {
            if is_plain && byte > b'~' {
                text.append(&[byte])
            } else {
                text.append(b"\\u00")?;
                text.append(&[hex(byte / 16), hex(byte % 16)])
            }
        }
    }
}

/// Appends bytes as a string in quotes. Those that aren't UTF-8 are taken for Latin-1. The one error is out of memory, after
/// which a part may be there.
pub fn append_json_string(text: &mut Bytes, bytes: &[u8]) -> Result<(), AllocError> {
    let is_plain = std::str::from_utf8(bytes).is_ok();
    text.append(b"\"")?;
    for byte in bytes {
        append_byte(text, *byte, is_plain)?;
    }
    text.append(b"\"")
}
