//! Values on the stack in words.

ghost use Rattle.std.specs.Prelude.{◌≡◌, ◌++◌, OnOk, IfOk};
ghost use Rattle.std.specs.List.{list_all};
ghost use Rattle.bt_effects.specs.Words.{kinds_words, is_plain_byte, is_shown, text_words, field_name, field_words, integer_words, lying_words, more_values, stack_words, with_notes};

use bt_check::Lying;
use bt_known::Kinds;
use bt_text::Bytes;
use bt_words::Program;
use itoa::Buffer;
use std::alloc::{AllocError, Global};

/// The most bytes of a text that is shown as it is.
const SHOWN_BYTES: usize = 40;

fn kinds_words(kinds: Kinds) -> &'static [u8]
    ensures { result.now ≡ kinds_words kinds.function kinds.integer kinds.missing kinds.string }
{
    match (kinds.function, kinds.integer, kinds.missing, kinds.string) {
        (false, false, false, true) => b"a string",
        (false, false, true, false) => b"a missing field",
        (false, false, true, true) => b"a string or a missing field",
        (false, true, false, false) => b"an integer",
        (true, false, false, false) => b"a function",
        _ => b"a value",
    }
}

fn is_plain_byte(byte: u8) -> bool
    ensures { result ≡ is_plain_byte byte }
{
    byte != b'`'
}

fn has_plain_bytes(text: &[u8]) -> bool
    ensures { result ≡ list_all is_plain_byte text.now }
{
    text.iter().all(|byte| is_plain_byte(*byte))
}

/// Whether a text can stand between backquotes in Markdown, and isn't long.
fn is_shown(text: &[u8]) -> bool
    ensures { result ≡ is_shown text.now }
{
    text.len() <= SHOWN_BYTES && has_plain_bytes(text)
}

fn add_text(words: &mut Bytes, text: &[u8]) -> Result<(), AllocError>
    ensures { OnOk result (words.new ≡ words.old ++ text_words text.now) }
{
    if is_shown(text) {
        words.append_all(&[b"`\"", text, b"\"`"])
    } else {
        words.append(b"a string")
    }
}

/// The name of a field; empty if there is none of this number.
fn field_name(fields: &[Bytes], number: usize) -> &[u8]
    ensures { result.now ≡ field_name fields.now number }
{
    match fields.get(number) {
        Some(name) => name.as_slice(),
        None => &[],
    }
}

fn add_field(words: &mut Bytes, name: &[u8]) -> Result<(), AllocError>
    ensures { OnOk result (words.new ≡ words.old ++ field_words name.now) }
{
    if is_shown(name) {
        words.append_all(&[b"the field `", name, b"`"])
    } else {
        words.append(b"a field")
    }
}

fn add_integer(words: &mut Bytes, number: i32) -> Result<(), AllocError>
    ensures { OnOk result (words.new ≡ words.old ++ integer_words number) }
{
    let mut buffer = Buffer::new();
    words.append_all(&[b"`#", buffer.format(number).as_bytes(), b"`"])
}

fn add_lying(
    words: &mut Bytes,
    fields: &[Bytes],
    program: &Program,
    lying: Lying,
) -> Result<(), AllocError>
    ensures { OnOk result (words.new ≡ words.old ++ lying_words fields.now program.now lying) }
{
    match lying {
        Lying::Integer(number) => add_integer(words, number),
        Lying::Text(number) => add_text(words, program.text(number)),
        Lying::Field(number) => add_field(words, field_name(fields, number)),
        Lying::Of(kinds) => words.append(kinds_words(kinds)),
    }
}

fn add_more_values(
    words: &mut Bytes,
    fields: &[Bytes],
    program: &Program,
    values: &[Lying],
) -> Result<(), AllocError>
    ensures { OnOk result (words.new ≡ words.old ++ more_values fields.now program.now values.now) }
{
    'values: for value in values {
        words.append(b", ")?;
        add_lying(words, fields, program, *value)?;
    }
    Ok(())
}

/// Appends values of the stack, from the lowest on.
pub fn add_stack(
    words: &mut Bytes,
    fields: &[Bytes],
    program: &Program,
    values: &[Lying],
) -> Result<(), AllocError>
    ensures { OnOk result (words.new ≡ words.old ++ stack_words fields.now program.now values.now) }
{
    match values {
        [] => words.append(b"nothing"),
        [first, rest @ ..] => {
            add_lying(words, fields, program, *first)?;
            add_more_values(words, fields, program, rest)
        }
    }
}

/// What is said of a name, and of the stack there.
pub fn with_notes(alloc: Global, said: &[u8], notes: &[u8]) -> Result<Bytes, AllocError>
    ensures { IfOk result (λ words. words ≡ with_notes said.now notes.now) }
{
    if said.is_empty() || notes.is_empty() {
        Bytes::of(alloc, &[said, notes])
    } else {
        Bytes::of(alloc, &[said, b"\n\n", notes])
    }
}
