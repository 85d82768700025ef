//! The part of a document that a completion replaces.

ghost use Rattle.std.specs.Prelude.{◌≡◌, ◌≤◌, ◌<◌, ◌*◌, ◌^◌, length, IfOk};
ghost use Rattle.std.specs.List.{list_any};
ghost use Rattle.bt_mentions.specs.Databases.{is_opening};
ghost use Rattle.serde_json.specs.View.{view};
ghost use Rattle.bt_writing.specs.Written.{names_at_end, begins_item, is_head, written_len, written_at, edit_of, ordered_item};

use bt_documents::Document;
use bt_mentions::{Inside, inside_item, is_opening};
use bt_places::keys_at_end;
use bt_positions::Position;
use bt_shapes::{range, shown, text_edit};
use bt_text::is_name_byte;
use serde_json::{Value, json};
use std::alloc::{AllocError, Global};

/// The part of a document that a completion replaces: the name that is being written, up to the cursor.
#[derive(Clone, Copy)]
pub struct Written {
    pub from: Position,
    pub to: Position,
}

/// How many bytes of names a text ends with.
fn names_at_end(text: &[u8]) -> usize
    ensures value { result ≡ names_at_end 0 text.now }
    ensures within { result ≤ length text.now }
{
    let mut count = 0;
    let mut rest = text;
    'bytes: while let [first, others @ ..] = rest {
        count = if is_name_byte(*first) { count + 1 } else { 0 };
        rest = others;
    }
    count
}

/// Whether a text has a `{` or a `(`.
pub fn has_opening(text: &[u8]) -> bool
    ensures { result ≡ list_any is_opening text.now }
{
    text.iter().any(|byte| is_opening(*byte))
}

/// Whether a text begins with an `@`.
pub fn begins_item(front: &[u8]) -> bool
    ensures { result ≡ begins_item front.now }
{
    match front {
        [first, ..] => *first == b'@',
        [] => false,
    }
}

/// Whether an item's first bytes are an `@` and a part of its type.
pub fn is_head(front: &[u8]) -> bool
    ensures { result ≡ is_head front.now }
{
    begins_item(front) && !has_opening(front)
}

/// How many bytes of a name an item's first bytes end with: of a key in braces and quotes, of a macro elsewhere in a value,
/// of a type behind the `@`.
pub fn written_len(front: &[u8]) -> usize
    ensures { result ≡ written_len front.now }
{
    if is_head(front) {
        return names_at_end(front.split_at(front.len().min(1)).1);
    }
    match inside_item(front) {
        Inside::Value(_) => names_at_end(front),
        Inside::Name(_) | Inside::Braced(_, _) | Inside::Quoted(_, _) => keys_at_end(front),
    }
}

impl Written {
    /// So many bytes before a place.
    pub fn before(document: &Document, place: usize, count: usize) -> Written
        requires within { place ≤ length document.now.text }
        requires small { 2 * length document.now.text < 2 ^ 64 }
        ensures { result ≡ written_at document.now place count }
    {
        let from = place.saturating_sub(count);
        Written {
            from: document.text.position_of(document.counting, from),
            to: document.text.position_of(document.counting, place),
        }
    }

    /// The edit that writes a name there.
    pub fn edit(&self, alloc: Global, name: &[u8]) -> Result<Value, AllocError>
        ensures { IfOk result (λ v. view v ≡ edit_of self.now name.now) }
    {
        let range = range(alloc, self.from, self.to)?;
        let edit = text_edit(alloc, range, name)?;
        Ok(edit)
    }

    /// What a completion offers for a name, with the protocol's number for its kind. Editors sort by the digit before the
    /// name.
    pub fn ordered_item(
        &self,
        alloc: Global,
        kind: u8,
        name: &[u8],
        is_late: bool,
    ) -> Result<Value, AllocError>
        ensures { IfOk result (λ v. view v ≡ ordered_item self.now kind name.now is_late) }
    {
        let digit = if is_late { "1" } else { "0" };
        let label = shown(alloc, name)?;
        let order = format!(in alloc; "{digit}{label}")?;
        let edit = self.edit(alloc, name)?;
        json!(in alloc; {"label": label, "kind": kind, "sortText": order, "textEdit": edit})
    }
}
