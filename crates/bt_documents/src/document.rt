//! A document.

ghost use Rattle.std.specs.Prelude.{◌≡◌, ◌<◌, length, position, IfSome};
ghost use Rattle.std.specs.Str.{bytes_eq};

use bt_positions::{Counting, IndexedText};
use bt_text::Bytes;

/// A document that an editor holds open.
#[derive(Drop)]
pub struct Document {
    /// The name of its file.
    pub name: Bytes,
    /// The units of the editor's positions in it.
    pub counting: Counting,
    /// The number that the editor gave the text. The protocol has integers here, so it may be negative.
    pub version: i64,
    pub text: IndexedText,
    /// Whether the files took its text.
    pub in_step: bool,
}

/// The index of the document with a name.
pub fn index_of(documents: &[Document], name: &[u8]) -> Option<usize>
    ensures place { result ≡ position (λ d. bytes_eq d.name name.now) documents.now }
    ensures within { IfSome result (λ n. n < length documents.now) }
{
    documents
        .iter()
        .position(|document| document.name.as_slice() == name)
}
