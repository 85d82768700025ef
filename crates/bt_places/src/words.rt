//! Bytes as texts that an editor shows, and back.

ghost use Rattle.std.specs.Prelude.{◌≡◌, map, IfOk};
ghost use Rattle.std.specs.Str.{chars, is_utf8};
ghost use Rattle.bt_places.specs.Words.{counting_of, latin_of, fits_latin, bytes_of};

use bt_positions::Counting;
pub use bt_shapes::shown;
use bt_text::Bytes;
use std::alloc::{AllocError, Global};

/// The units of an editor that counts bytes or units of UTF-16, in a text that isn't known to be in Latin-1.
pub fn counting_of(counts_bytes: bool) -> Counting
    ensures { result ≡ counting_of counts_bytes }
{
    if counts_bytes {
        Counting::Utf8
    } else {
        Counting::Utf16
    }
}

/// Whether bytes are UTF-8.
pub fn is_utf8(bytes: &[u8]) -> bool
    ensures { result ≡ is_utf8 bytes.now }
{
    match str::from_utf8(bytes) {
        Ok(_) => true,
        Err(_) => false,
    }
}

/// A character's byte in Latin-1; a question mark if it has none.
fn latin(letter: char) -> u8
    ensures { result ≡ latin_of letter }
{
    let code = letter as u32;
    if code < 256 { code as u8 } else { b'?' }
}

fn latin_bytes(alloc: Global, text: &str) -> Result<Vec<u8>, AllocError>
    ensures { IfOk result (λ bytes. bytes.items ≡ map latin_of (chars text.now)) }
{
    text.chars().map(|letter| latin(letter)).collect(alloc)
}

/// Whether Latin-1 has all letters of a text.
pub fn fits_latin(text: &str) -> bool
    ensures { result ≡ fits_latin text.now }
{
    text.chars().all(|letter| (letter as u32) < 256)
}

/// The bytes that saving a text would write.
pub fn bytes_of(alloc: Global, counting: Counting, text: &str) -> Result<Bytes, AllocError>
    ensures { IfOk result (λ bytes. bytes ≡ bytes_of counting text.now) }
{
    match counting {
        Counting::Utf8 | Counting::Utf16 => Bytes::copied(alloc, text.as_bytes()),
        Counting::LatinAsUtf8 | Counting::LatinAsUtf16 => {
            Ok(Bytes::from_vec(latin_bytes(alloc, text)?))
        }
    }
}
