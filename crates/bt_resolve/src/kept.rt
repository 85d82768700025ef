//! A resolution that is kept, and what a small edit changes of it.
//!
//! Which entries are stored and listed, in what order, under which key, and who refers to whom: all that depends on keys,
//! types and `crossref` fields. An edit of another field changes none of that. Then only the changed entry and its heirs
//! are seen differently, only that entry's messages are new, and later messages only move. A string or a preamble that
//! only moves changes still less. After any other edit everything is resolved anew.
//!
//! Most of what is kept beside the answer stays right after such an edit: how far the reading was before each piece, the
//! list, the macros after all items, and the stored entries apart from their values. The present values have a list of
//! their own.

ghost use Rattle.std.specs.Prelude.{◌≡◌, ◌+◌, ◌^◌, ◌<◌, ◌≤◌, length, IfOk, IfSome, IsTrue};
ghost use Rattle.bt_text.specs.ByName.{known};
ghost use Rattle.bt_text.specs.NameList.{are_apart};
ghost use Rattle.bt_resolve.specs.inner.Earlier.{AreEdited, IsEarlier};
ghost use Rattle.bt_resolve.specs.inner.Kept.{IsAround, IsEditOf, IsFound, IsNewSpan, IsPlace, AreBefore, IsResolvedEdit, IsSpanEdit, asked_by, mark_of, resolved_for, with_database};

use crate::asked::Asked;
use crate::databases::{nothing_read, read_databases};
use crate::earlier::{Earlier, EditedDatabase};
use crate::entry::Resolved;
use crate::family::Family;
use crate::found::found_in;
use crate::macro_text::MacroText;
use crate::macros_before::{macros_before, string_databases, strings_end};
use crate::moved_messages::patched;
use crate::question::Question;
use crate::reading::Reach;
use crate::seen_edit::{SeenEdit, put_seen};
use crate::skeleton::is_short;
use crate::span::{Mark, Span, SpanReader};
use crate::stored::FieldValues;
use bt_bib::{Items, ItemsEdit};
use bt_log::Message;
use bt_text::{ByName, Sequence, Shared};
use std::alloc::{AllocError, Global};
use std::marker::Model;

/// What was found for a question, with what an edit needs.
#[derive(Drop)]
pub struct Found {
    /// What macros stand for after all items.
    pub macros: Shared<ByName<MacroText>>,
    /// The stored entries, but perhaps with older values.
    pub store: Family,
    /// The values of the stored entries, before they inherit.
    pub values: Sequence<Shared<FieldValues>>,
    /// The places of the whole list, with the entries that are left out.
    pub listed: Sequence<usize>,
    /// How far the reading was before each piece of each database, and at its end.
    pub reaches: Sequence<Sequence<Reach>>,
    /// The places of the entries that are seen, among the stored ones.
    pub places: Sequence<usize>,
    pub all: Resolved,
}

/// What the style sees of some databases, kept for edits. Contracts see what is resolved.
#[derive(Drop)]
pub struct Resolution {
    question: Question,
    found: Found,
    /// No database after this number has a string. Finding the last one takes as long as the rest of an edit, so edits only
    /// raise this bound.
    last_strings: usize,
}

impl Model for Resolution {
    ghost use Rattle.bt_resolve.specs.declared.question.Question.{Question};

    ghost Value = { Question };

    ghost use Rattle.bt_resolve.specs.inner.Kept.{AreStringless, IsFound};

    ghost view = { λ r. r.question };

    ghost invariant = { λ r. IsFound r.question r.found × AreStringless r.last_strings r.question };
}

/// What an edit changes of a resolution.
#[derive(Drop)]
pub struct ResolvedEdit {
    /// Which entries are seen.
    pub seen: SeenEdit,
    /// All messages after the edit.
    pub messages: Sequence<Message>,
}

/// How far the reading was before a span of pieces, after it, and at the end of its database.
#[derive(Clone, Copy)]
pub struct Around {
    pub first: Reach,
    pub past: Reach,
    pub last: Reach,
}

fn reach_around(reaches: &[Reach], before: usize, upto: usize) -> Option<Around>
    ensures { IfSome result (λ r. IsAround reaches.now before upto r) }
{
    Some(Around {
        first: *reaches.get(before)?,
        past: *reaches.get(upto)?,
        last: *reaches.last()?,
    })
}

fn mark_of(around: Around) -> Mark
    ensures { result ≡ mark_of around }
{
    Mark {
        stored: around.first.stored < around.past.stored,
        told: around.past.told.saturating_sub(around.first.told),
    }
}

/// What an edit finds: the resolution before it, and how far the reading was around the pieces that it replaces.
#[derive(Clone, Copy, Drop)]
pub struct EditView<'a, 'n> {
    pub alloc: Global,
    pub asked: &'a Asked<'n>,
    /// The least number of references.
    pub min: u32,
    pub found: &'a Found,
    pub around: Around,
}

impl EditView<'_, '_> {
    /// What the new piece gives, with these macros before it. None if it isn't known whether its entry is stored, or the
    /// messages aren't as many as before.
    fn new_span(
        &self,
        macros: &ByName<MacroText>,
        number: usize,
        edit: &ItemsEdit,
    ) -> Result<Option<Span>, AllocError>
        requires few { length edit.now.new ≤ 1 }
        requires number { number + 1 < 2 ^ 64 }
        requires fields { IsTrue (are_apart self.now.asked.now.fields) }
        ensures { IfOk result (λ read. IfSome read (λ span.
            IsNewSpan self.now.asked.now (known macros.now) number edit.now self.now.around span)) }
    {
        let mark = mark_of(self.around);
        let reader = SpanReader {
            alloc: self.alloc,
            asked: self.asked,
            macros,
            database: number + 1,
            mark,
        };
        let Some(span) = reader.span(edit.new.pieces())? else {
            return Ok(None);
        };
        if span.messages.len() != mark.told {
            return Ok(None);
        }
        Ok(Some(span))
    }

    /// What an edit of at most one piece changes, if the new one gives this.
    fn span_edit(&self, span: &Span, edit: &ItemsEdit) -> Result<Option<ResolvedEdit>, AllocError>
        ensures { IfOk result (λ made. IfSome made (λ e. IsSpanEdit self.now.asked.now self.now.min
            self.now.found.now span.now edit.now self.now.around e)) }
    {
        let Some(seen) = self.seen_edit(span.stored.as_slice())? else {
            return Ok(None);
        };
        let all = self.found.all.messages.as_slice();
        let told = span.messages.as_slice();
        let Some(messages) = patched(self.alloc, all, told, self.around, edit)? else {
            return Ok(None);
        };
        Ok(Some(ResolvedEdit { seen, messages }))
    }
}

fn find_asked(
    alloc: Global,
    asked: &Asked<'_>,
    question: &Question,
    earlier: Option<Earlier<'_>>,
) -> Result<Found, AllocError>
    requires fields { IsTrue (are_apart question.now.declared.fields) }
    requires star { IfSome question.now.cites.star (λ before. before ≤ length question.now.cites.keys) }
    requires asked { asked.now ≡ asked_by question.now }
    requires earlier { IfSome earlier (IsEarlier asked.now question.now.databases) }
    ensures { IfOk result (λ found. IsFound question.now found) }
{
    let mut read = nothing_read(alloc, question.declared.macros.as_slice())?;
    let databases = question.databases.as_slice();
    let reaches = read_databases(alloc, asked, databases, earlier, &mut read)?;
    let found = found_in(alloc, asked, question.min, read, reaches)?;
    Ok(found)
}

fn find(
    alloc: Global,
    question: &Question,
    earlier: Option<Earlier<'_>>,
) -> Result<Found, AllocError>
    requires fields { IsTrue (are_apart question.now.declared.fields) }
    requires star { IfSome question.now.cites.star (λ before. before ≤ length question.now.cites.keys) }
    requires earlier { IfSome earlier (IsEarlier (asked_by question.now) question.now.databases) }
    ensures { IfOk result (λ found. IsFound question.now found) }
{
    let asked = Asked::for_all(alloc, &question.declared, &question.cites)?;
    find_asked(alloc, &asked, question, earlier)
}

impl Resolution {
    fn of_found(question: Question, found: Found) -> Resolution
        requires { IsFound question found }
        ensures { result ≡ question }
    {
        let string_databases = string_databases(question.databases.as_slice());
        Resolution {
            question,
            found,
            last_strings: string_databases.saturating_sub(1),
        }
    }

    /// What the style sees of some databases. The only error is out of memory.
    pub fn of(alloc: Global, question: Question) -> Result<Resolution, AllocError>
        requires fields { IsTrue (are_apart question.declared.fields) }
        requires star { IfSome question.cites.star (λ before. before ≤ length question.cites.keys) }
        ensures { IfOk result (λ kept. kept ≡ question) }
    {
        let found = find(alloc, &question, None)?;
        Ok(Resolution::of_found(question, found))
    }

    /// The same as `of`, reusing what this resolution stored. The question must have the same declarations, and the same
    /// databases, of which one may be edited. The only error is out of memory.
    pub fn after(
        &self,
        alloc: Global,
        question: Question,
        edited: EditedDatabase,
    ) -> Result<Resolution, AllocError>
        requires star { IfSome question.cites.star (λ before. before ≤ length question.cites.keys) }
        requires declared { question.declared ≡ self.now.declared }
        requires databases { AreEdited self.now edited question.databases }
        ensures { IfOk result (λ kept. kept ≡ question) }
    {
        let earlier = Earlier::new(&self.question, &self.found, edited);
        let found = find(alloc, &question, Some(earlier))?;
        Ok(Resolution::of_found(question, found))
    }

    /// What is resolved.
    pub fn question(&self) -> &Question
        ensures { result.now ≡ self.now }
    {
        &self.question
    }

    /// What the style sees.
    pub fn resolved(&self) -> &Resolved
        ensures { result.now ≡ resolved_for self.now }
    {
        &self.found.all
    }

    /// What macros stand for before a piece of a database.
    fn macros_before(
        &self,
        alloc: Global,
        asked: &Asked<'_>,
        number: usize,
        before: usize,
    ) -> Result<Shared<ByName<MacroText>>, AllocError>
        requires { IsPlace self.now number before }
        ensures { IfOk result (λ macros. AreBefore self.now number before (known macros)) }
    {
        let databases = self.question.databases.as_slice();
        let items = &databases[number];
        let pieces = items.pieces();
        if strings_end(pieces) <= before && self.last_strings <= number {
            return self.found.macros.share();
        }
        let style = self.question.declared.macros.as_slice();
        let (databases, pieces) = (&databases[..number], &pieces[..before]);
        let macros = macros_before(alloc, asked, style, databases, pieces)?;
        Shared::new(alloc, macros)
    }

    /// What changes if an edit leaves these items in a database. None if that may be more than the values of one entry;
    /// then everything must be resolved anew. The only error is out of memory.
    pub fn edit(
        &self,
        alloc: Global,
        number: usize,
        items: &Items,
        edit: &ItemsEdit,
    ) -> Result<Option<ResolvedEdit>, AllocError>
        requires { IsEditOf self.now number items.now edit.now }
        ensures { IfOk result (λ made. IfSome made (λ e. IsResolvedEdit self.now number items.now e)) }
    {
        let databases = self.question.databases.as_slice();
        if number >= databases.len() {
            return Ok(None);
        }
        let reaches = self.found.reaches.as_slice();
        if number >= reaches.len() {
            return Ok(None);
        }
        let database = &databases[number];
        let old = database.pieces();
        if !is_short(old, edit) {
            return Ok(None);
        }
        let passed = &reaches[number];
        let Some(around) = reach_around(passed.as_slice(), edit.before, edit.upto) else {
            return Ok(None);
        };
        let asked = Asked::new(alloc, &self.question.declared, &self.question.cites)?;
        let macros = self.macros_before(alloc, &asked, number, edit.before)?;
        let view = EditView {
            alloc,
            asked: &asked,
            min: self.question.min,
            found: &self.found,
            around,
        };
        let read = view.new_span(&macros, number, edit)?;
        let Some(span) = read else {
            return Ok(None);
        };
        let made = view.span_edit(&span, edit)?;
        Ok(made)
    }

    /// Makes the edit that leaves these items in a database. It can't fail.
    pub fn put(&mut self, number: usize, items: Shared<Items>, edit: ResolvedEdit)
        requires { IsResolvedEdit self.old number items edit }
        ensures { self.new ≡ with_database number items self.old }
    {
        let ResolvedEdit { seen, messages } = edit;
        put_seen(&mut self.found.all.entries, &mut self.found.values, seen);
        self.found.all.messages = messages;
        self.question.databases.set(number, items);
        self.last_strings = self.last_strings.max(number);
    }
}
