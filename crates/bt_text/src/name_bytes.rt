//! Names of databases and styles.

ghost use Rattle.std.specs.Prelude.{◌≡◌, ◌≤◌, length, take};
ghost use Rattle.std.specs.List.{list_all, prefix_len};
ghost use Rattle.bt_text.specs.NameBytes.{is_name, is_name_byte, name_at_start};

use crate::byte_tests::is_digit;

/// Whether names may hold a byte: one from 33 on, but for `"`, `#`, `%`, `'`, `(`, `)`, `,`, `=`, `{` and `}`.
pub fn is_name_byte(byte: u8) -> bool
    ensures { result ≡ is_name_byte byte }
{
    33 <= byte
        && !matches!(
            byte,
            b'"' | b'#' | b'%' | b'\'' | b'(' | b')' | b',' | b'=' | b'{' | b'}'
        )
}

fn name_bytes_len(text: &[u8]) -> usize
    ensures within { result ≤ length text.now }
    ensures len { result ≡ prefix_len is_name_byte text.now }
{
    text.iter().take_while(|byte| is_name_byte(**byte)).count()
}

/// How many bytes the name has that a text begins with. A name doesn't begin with a digit.
pub fn name_len(text: &[u8]) -> usize
    ensures within { result ≤ length text.now }
    ensures name { take result text.now ≡ name_at_start text.now }
{
    match text {
        [] => 0,
        [first, ..] => {
            if is_digit(*first) {
                0
            } else {
                name_bytes_len(text)
            }
        }
    }
}

fn has_name_bytes_alone(text: &[u8]) -> bool
    ensures { result ≡ list_all is_name_byte text.now }
{
    text.iter().all(|byte| is_name_byte(*byte))
}

/// Whether a whole text is a name.
pub fn is_name(text: &[u8]) -> bool
    ensures { result ≡ is_name text.now }
{
    match text {
        [] => false,
        [first, ..] => !is_digit(*first) && has_name_bytes_alone(text),
    }
}
