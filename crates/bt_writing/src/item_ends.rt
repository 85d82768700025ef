//! What the text around a fault shows of the part that is missing there.

ghost use Rattle.std.specs.Prelude.{◌≡◌, ◌≤◌, length};
ghost use Rattle.std.specs.List.{list_any};
ghost use Rattle.bt_writing.specs.ItemEnds.{begins_field, is_line_end, last_word};

use bt_mentions::part;
use bt_places::keys_at_end;
use bt_text::{is_name_byte, is_white, trim_end};

/// Whether a text begins with a field: with a name and a `=`.
pub fn begins_field(text: &[u8]) -> bool
    ensures { result ≡ begins_field text.now }
{
    let mut rest = text;
    'bytes: while let [first, others @ ..] = rest {
        if !(is_name_byte(*first) || is_white(*first)) {
            return *first == b'=';
        }
        rest = others;
    }
    false
}

/// Whether a text has the end of a line.
pub fn has_line_end(text: &[u8]) -> bool
    ensures { result ≡ list_any is_line_end text.now }
{
    text.iter().any(|byte| *byte == b'\n')
}

/// Where the last word of a part of a text begins. White space may follow the word.
pub fn last_word(text: &[u8], start: usize, end: usize) -> usize
    requires { start ≤ length text.now }
    ensures { result ≡ last_word text.now start end }
{
    let solid = trim_end(part(text, start, end));
    start + (solid.len() - keys_at_end(solid))
}
