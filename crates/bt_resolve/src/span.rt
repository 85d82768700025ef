//! The item that an edit brings, read in the place of another.
//!
//! Whether an entry is stored depends on the keys and `crossref` fields of those before it. An entry of the same
//! skeleton in the same place is stored exactly if the old one was. So what the old one gave shows whether it is, and
//! nothing is looked up among the stored entries, which by now include later ones.

ghost use Rattle.std.specs.Prelude.{◌≡◌, ◌≤◌, ◌++◌, ◌∷◌, [], length, IfOk, IfSome, IsTrue, OnOk};
ghost use Rattle.bt_bib.specs.Items.{items_of};
ghost use Rattle.bt_text.specs.ByName.{known};
ghost use Rattle.bt_text.specs.NameList.{are_apart};
ghost use Rattle.bt_resolve.specs.inner.Spans.{nothing, span_of, stored_if, tells, tells_of, told_if, with_content_by, with_item_by};

use crate::asked::Asked;
use crate::macro_text::MacroText;
use crate::place::Origin;
use crate::reader::Reader;
use crate::skeleton::is_entry;
use crate::stored::Stored;
use bt_bib::{Content, Entry, Piece, PlacedPiece};
use bt_log::Message;
use bt_text::{ByName, Bytes, Sequence};
use std::alloc::{AllocError, Global};

/// What an item gave when it was read: whether it is an entry that was stored, and how many messages came.
#[derive(Clone, Copy)]
pub struct Mark {
    pub stored: bool,
    pub told: usize,
}

/// What items give: the entries that they store, and their messages.
#[derive(Drop)]
pub struct Span {
    pub stored: Sequence<Stored>,
    pub messages: Sequence<Message>,
}

fn nothing(alloc: Global) -> Span
    ensures { result ≡ nothing }
{
    Span {
        stored: Sequence::new(alloc),
        messages: Sequence::new(alloc),
    }
}

/// Whether the mark shows if the entry is wanted. An entry that isn't stored but gave messages may be a repeated one,
/// or have a fault.
fn tells(mark: Mark) -> bool
    ensures { result ≡ tells mark }
{
    mark.stored || mark.told == 0
}

impl Reader<'_, '_> {
    fn entry_by(
        &self,
        is_stored: bool,
        entry: &Entry,
        macros: &ByName<MacroText>,
        span: &mut Span,
    ) -> Result<(), AllocError>
        requires { IsTrue (are_apart self.now.asked.now.fields) }
        ensures stored { OnOk result (span.new.stored ≡ span.old.stored
            ++ stored_if self.now.asked.now (known macros.now) is_stored entry.now entry.now.key) }
        ensures messages { OnOk result (span.new.messages ≡ span.old.messages ++ told_if self.now.asked.now
            (known macros.now) is_stored self.now.origin self.now.item.now.line entry.now entry.now.key) }
    {
        let Some(key) = &entry.key else {
            return Ok(());
        };
        if !is_stored {
            return Ok(());
        }
        let stored = self.stored(entry, key, macros, &mut span.messages)?;
        span.stored.push(stored)?;
        Ok(())
    }

    fn content_by(
        &self,
        mark: Mark,
        macros: &ByName<MacroText>,
        span: &mut Span,
    ) -> Result<(), AllocError>
        requires { IsTrue (are_apart self.now.asked.now.fields) }
        ensures { OnOk result (span.new ≡ with_content_by self.now.asked.now (known macros.now) mark
            self.now.origin self.now.item.now span.old) }
    {
        match &self.item.content {
            Content::Entry(entry) => self.entry_by(mark.stored, entry, macros, span),
            Content::Define(string) => self.tell_string(string, macros, &mut span.messages),
            Content::Preamble(parts) => {
                let mut joined = Bytes::new(self.alloc);
                self.preamble(parts, macros, &mut joined, &mut span.messages)
            }
        }
    }

    fn item_by(
        &self,
        mark: Mark,
        macros: &ByName<MacroText>,
        span: &mut Span,
    ) -> Result<(), AllocError>
        requires { IsTrue (are_apart self.now.asked.now.fields) }
        ensures { OnOk result (span.new ≡ with_item_by self.now.asked.now (known macros.now) mark
            self.now.origin self.now.end self.now.item.now span.old) }
    {
        self.content_by(mark, macros, span)?;
        self.tell_fault(&mut span.messages)
    }
}

/// What the piece of an edit is read with.
#[derive(Clone, Copy, Drop)]
pub struct SpanReader<'a> {
    pub alloc: Global,
    pub asked: &'a Asked<'a>,
    /// The macros before the piece.
    pub macros: &'a ByName<MacroText>,
    /// The number of its database, from 1.
    pub database: usize,
    /// What the piece gave that it replaces.
    pub mark: Mark,
}

impl SpanReader<'_> {
    fn piece(&self, piece: &PlacedPiece) -> Result<Option<Span>, AllocError>
        requires { IsTrue (are_apart self.now.asked.now.fields) }
        ensures told { IfOk result (λ read. IfSome read (λ span.
            IsTrue (tells_of self.now.mark (items_of (piece.now ∷ []))))) }
        ensures span { IfOk result (λ read. IfSome read (λ span. span ≡ span_of self.now.asked.now
            (known self.now.macros.now) self.now.database self.now.mark (items_of (piece.now ∷ [])))) }
    {
        let mut span = nothing(self.alloc);
        let Piece::Item(item) = &*piece.piece else {
            return Ok(Some(span));
        };
        if is_entry(&item.content) && !tells(self.mark) {
            return Ok(None);
        }
        let reader = Reader {
            alloc: self.alloc,
            asked: self.asked,
            item,
            origin: Origin {
                database: self.database,
                line: piece.start.line,
            },
            end: piece.end,
            known: None,
        };
        reader.item_by(self.mark, self.macros, &mut span)?;
        Ok(Some(span))
    }

    /// Reads at most one piece. None if it is an entry and the mark doesn't show whether it is wanted.
    pub fn span(&self, pieces: &[PlacedPiece]) -> Result<Option<Span>, AllocError>
        requires few { length pieces.now ≤ 1 }
        requires fields { IsTrue (are_apart self.now.asked.now.fields) }
        ensures told { IfOk result (λ read. IfSome read (λ span.
            IsTrue (tells_of self.now.mark (items_of pieces.now)))) }
        ensures span { IfOk result (λ read. IfSome read (λ span. span ≡ span_of self.now.asked.now
            (known self.now.macros.now) self.now.database self.now.mark (items_of pieces.now))) }
    {
        if pieces.len() == 0 {
            return Ok(Some(nothing(self.alloc)));
        }
        let read = self.piece(&pieces[0])?;
        Ok(read)
    }
}
