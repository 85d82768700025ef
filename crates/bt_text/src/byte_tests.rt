//! The class of a byte, and tests on bytes.

ghost use Rattle.std.specs.Prelude.{◌≡◌};
ghost use Rattle.bt_text.specs.ByteTests.{is_digit, is_letter, is_separator, is_white};
ghost use Rattle.bt_text.specs.Classes.{class_of};

use crate::classes::Class;

/// The class of a byte.
pub fn class(byte: u8) -> Class
    ensures { result ≡ class_of byte }
{
    match byte {
        9 | 10 | 13 | 32 => Class::White,
        b'A'..=b'Z' | b'a'..=b'z' | 128..=255 => Class::Letter,
        b'0'..=b'9' => Class::Digit,
        b'~' | b'-' => Class::Sep,
        _ => Class::Other,
    }
}

/// Whether a byte is white space.
pub fn is_white(byte: u8) -> bool
    ensures { result ≡ is_white byte }
{
    matches!(byte, 9 | 10 | 13 | 32)
}

/// Whether a byte is a letter.
pub fn is_letter(byte: u8) -> bool
    ensures { result ≡ is_letter byte }
{
    matches!(byte, b'A'..=b'Z' | b'a'..=b'z' | 128..=255)
}

/// Whether a byte is a digit.
pub fn is_digit(byte: u8) -> bool
    ensures { result ≡ is_digit byte }
{
    matches!(byte, b'0'..=b'9')
}

/// Whether a byte is a separator.
pub fn is_separator(byte: u8) -> bool
    ensures { result ≡ is_separator byte }
{
    matches!(byte, b'~' | b'-')
}
