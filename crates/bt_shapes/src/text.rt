//! Bytes as texts that an editor shows.

ghost use Rattle.std.specs.Prelude.{◌≡◌, ◌++◌, IfOk, OnOk};
ghost use Rattle.std.specs.Str.{encode_utf8_all};
ghost use Rattle.std.specs.String.{string_bytes};
ghost use Rattle.bt_shapes.specs.Text.{as_utf8};

use std::alloc::{AllocError, Global};

/// Adds the letters that these bytes are in Latin-1.
fn push_latin(text: &mut String, bytes: &[u8]) -> Result<(), AllocError>
    ensures { OnOk result (string_bytes text.new ≡ string_bytes text.old ++ encode_utf8_all bytes.now) }
{
    'bytes: for byte in bytes {
        text.push(*byte as char)?;
    }
    Ok(())
}

/// The text of these bytes. A byte that is part of no UTF-8 character is shown as the letter that it is in Latin-1, so that
/// a file in Latin-1 can be read.
pub fn shown(alloc: Global, bytes: &[u8]) -> Result<String, AllocError>
    ensures { IfOk result (λ text. string_bytes text ≡ as_utf8 bytes.now) }
{
    let mut text = String::new(alloc);
    'chunks: for chunk in bytes.utf8_chunks() {
        text.push_str(chunk.valid())?;
        push_latin(&mut text, chunk.invalid())?;
    }
    Ok(text)
}
