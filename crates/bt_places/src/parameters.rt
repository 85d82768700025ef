//! Parameters of messages.

ghost use Rattle.std.specs.Prelude.{◌≡◌, map, option_map};
ghost use Rattle.serde_json.specs.View.{view, items_of};
ghost use Rattle.serde_json.specs.Find.{as_str};
ghost use Rattle.bt_places.specs.Parameters.{is_word, has_word, has_word_at, text_at, number_at, flag_at, version_at, wants_declarations, position_at, cursor_of, document_named, document_of, place_of};

use bt_documents::Document;
use bt_positions::Position;
use serde_json::Value;

/// The text at a pointer.
pub fn text_at<'a>(value: &'a Value, path: &str) -> Option<&'a str>
    ensures { option_map (λ s. s.now) result ≡ text_at path.now (view value.now) }
{
    value.pointer(path).and_then(Value::as_str)
}

fn is_word(value: &Value, word: &str) -> bool
    ensures { result ≡ is_word word.now (as_str (view value.now)) }
{
    match value.as_str() {
        Some(own) => own == word,
        None => false,
    }
}

fn has_word(values: &[Value], word: &str) -> bool
    ensures { result ≡ has_word word.now (items_of (map view values.now)) }
{
    'values: for value in values {
        if is_word(value, word) {
            return true;
        }
    }
    false
}

/// Whether there is a list at a pointer that has a word.
pub fn has_word_at(value: &Value, path: &str, word: &str) -> bool
    ensures { result ≡ has_word_at path.now word.now (view value.now) }
{
    match value.pointer(path).and_then(Value::as_array) {
        Some(values) => has_word(values, word),
        None => false,
    }
}

/// The number at a pointer.
pub fn number_at(value: &Value, path: &str) -> Option<u64>
    ensures { result ≡ number_at path.now (view value.now) }
{
    value.pointer(path).and_then(Value::as_u64)
}

/// The boolean at a pointer.
pub fn flag_at(value: &Value, path: &str) -> Option<bool>
    ensures { result ≡ flag_at path.now (view value.now) }
{
    value.pointer(path).and_then(Value::as_bool)
}

/// Whether a message about references wants the declarations, too. It does unless it says no.
pub fn wants_declarations(message: &Value) -> bool
    ensures { result ≡ wants_declarations (view message.now) }
{
    flag_at(message, "/params/context/includeDeclaration").unwrap_or(true)
}

/// The integer at a pointer; 0 if there is none.
pub fn version_at(value: &Value, path: &str) -> i64
    ensures { result ≡ version_at path.now (view value.now) }
{
    match value.pointer(path).and_then(Value::as_i64) {
        Some(version) => version,
        None => 0,
    }
}

/// The position whose line and character stand at two pointers.
pub fn position_at(value: &Value, line: &str, character: &str) -> Option<Position>
    ensures { result ≡ position_at line.now character.now (view value.now) }
{
    match (number_at(value, line), number_at(value, character)) {
        (Some(line), Some(character)) => Some(Position {
            line: line as usize,
            character: character as usize,
        }),
        _ => None,
    }
}

/// The cursor's position, if a message has it.
pub fn cursor_of(message: &Value) -> Option<Position>
    ensures { result ≡ cursor_of (view message.now) }
{
    position_at(
        message,
        "/params/position/line",
        "/params/position/character",
    )
}

/// The first document of a name.
pub fn document_named<'a>(documents: &'a [Document], name: &[u8]) -> Option<&'a Document>
    ensures { option_map (λ d. d.now) result ≡ document_named name.now documents.now }
{
    documents
        .iter()
        .find(|document| document.name.as_slice() == name)
}

/// The open document that a message names.
pub fn document_of<'a>(documents: &'a [Document], message: &Value) -> Option<&'a Document>
    ensures { option_map (λ d. d.now) result ≡ document_of documents.now (view message.now) }
{
    match text_at(message, "/params/textDocument/uri") {
        Some(uri) => document_named(documents, uri.as_bytes()),
        None => None,
    }
}

/// The editor's cursor: an open document, and a position in it.
#[derive(Clone, Copy)]
pub struct Cursor<'a> {
    pub document: &'a Document,
    pub at: Position,
}

/// The cursor of a message, if it names an open document and a position.
pub fn place_of<'a>(documents: &'a [Document], message: &Value) -> Option<Cursor<'a>>
    ensures { option_map (λ c. (c.document.now, c.at)) result ≡ place_of documents.now (view message.now) }
{
    match (document_of(documents, message), cursor_of(message)) {
        (Some(document), Some(at)) => Some(Cursor { document, at }),
        _ => None,
    }
}
