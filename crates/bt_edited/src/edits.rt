//! Edits of a text, as an editor makes them: all their positions are those of the text before the first edit.

ghost use Rattle.std.specs.Prelude.{◌≡◌, ◌<◌, ◌*◌, ◌^◌, length, IfOk, OnOk};
ghost use Rattle.std.specs.List.{fold};
ghost use Rattle.bt_edited.specs.Edits.{edit_of, draft_after, finished, text_after_edits};

use bt_mentions::part;
use bt_positions::{Counting, IndexedText, Position};
use bt_text::Bytes;
use std::alloc::{AllocError, Global};

/// The text between two positions, replaced by another.
#[derive(Drop)]
pub struct Edit {
    pub from: Position,
    pub to: Position,
    pub new: Bytes,
}

impl Edit {
    /// The edit that replaces the part of a text between two offsets, as far as the text has it.
    pub fn of(counting: Counting, text: &IndexedText, from: usize, to: usize, new: Bytes) -> Edit
        requires { 2 * length text.now < 2 ^ 64 }
        ensures { result ≡ edit_of counting text.now from to new }
    {
        let end = text.as_slice().len();
        Edit {
            from: text.position_of(counting, from.min(end)),
            to: text.position_of(counting, to.min(end)),
            new,
        }
    }
}

/// A text that is edited up to the last edit made.
#[derive(Drop)]
pub struct Draft {
    pub bytes: Bytes,
    /// The offset in the old text where that edit ends.
    pub place: usize,
    /// Whether no edit begins before the one before it ends.
    pub rises: bool,
}

impl Draft {
    fn take(
        &mut self,
        counting: Counting,
        text: &IndexedText,
        edit: &Edit,
    ) -> Result<(), AllocError>
        ensures { OnOk result (self.new ≡ draft_after counting text.now self.old edit.now) }
    {
        let from = text.offset_of(counting, edit.from);
        let to = text.offset_of(counting, edit.to);
        self.bytes.append(part(text.as_slice(), self.place, from))?;
        self.bytes.append(edit.new.as_slice())?;
        self.rises = self.rises && self.place <= from && from <= to;
        self.place = to;
        Ok(())
    }

    fn finish(self, text: &[u8]) -> Result<Option<Bytes>, AllocError>
        ensures { IfOk result (λ all. all ≡ finished text.now self) }
    {
        let Draft {
            bytes,
            place,
            rises,
        } = self;
        if !rises {
            return Ok(None);
        }
        let mut all = bytes;
        all.append(part(text, place, text.len()))?;
        Ok(Some(all))
    }
}

/// The text after edits in the order of their positions; none if an edit begins before the one before it ends.
pub fn text_after_edits(
    alloc: Global,
    counting: Counting,
    text: &IndexedText,
    edits: &[Edit],
) -> Result<Option<Bytes>, AllocError>
    ensures { IfOk result (λ all. all ≡ text_after_edits counting edits.now text.now) }
{
    let mut draft = Draft {
        bytes: Bytes::new(alloc),
        place: 0,
        rises: true,
    };
    'edits: for edit in edits {
        draft.take(counting, text, edit)?;
    }
    draft.finish(text.as_slice())
}
