//! An editor's changes of a text.

ghost use Rattle.std.specs.Prelude.{◌≡◌, IfOk};
ghost use Rattle.bt_documents.specs.Changes.{text_after, all_edited};

use bt_positions::{Counting, IndexedText, Position, Splice};
use bt_text::Bytes;
use std::alloc::{AllocError, Global};

/// A change of a text, with its new bytes.
#[derive(Debug, Drop)]
pub enum Change {
    /// The whole text is replaced.
    Whole(Bytes),
    /// The part between two positions is replaced.
    Range(Position, Position, Bytes),
}

fn text_after(
    alloc: Global,
    counting: Counting,
    text: &IndexedText,
    change: &Change,
) -> Result<IndexedText, AllocError>
    ensures { IfOk result (λ changed. changed ≡ text_after counting change.now text.now) }
{
    match change {
        Change::Whole(new) => IndexedText::copied(alloc, new.as_slice()),
        Change::Range(from, to, new) => {
            let start = text.offset_of(counting, *from);
            let end = text.offset_of(counting, *to).max(start);
            let splice = Splice {
                start,
                end,
                new: new.as_slice(),
            };
            text.spliced(alloc, &splice)
        }
    }
}

/// The text after changes, each made to the text that the one before left.
pub fn all_edited(
    alloc: Global,
    counting: Counting,
    text: &IndexedText,
    changes: &[Change],
) -> Result<IndexedText, AllocError>
    ensures { IfOk result (λ changed. changed ≡ all_edited counting changes.now text.now) }
{
    match changes {
        [] => IndexedText::copied(alloc, text.as_slice()),
        [first, rest @ ..] => {
            let mut now = text_after(alloc, counting, text, first)?;
            'changes: for change in rest {
                now = text_after(alloc, counting, &now, change)?;
            }
            Ok(now)
        }
    }
}
