//! Answers about documents that are styles.

ghost use Rattle.std.specs.Prelude.{◌≡◌, ◌<◌, ◌*◌, ◌^◌, ◌++◌, length, map, option_map, IfOk};
ghost use Rattle.serde_json.specs.View.{view};
ghost use Rattle.bt_talk.specs.Replies.{outcome_of};
ghost use Rattle.bt_style_answers.specs.Renaming.{refused_or};
ghost use Rattle.bt_lsp.specs.Styles.{findings_of, error_of, outcome_for, rename_outcome, shown_answer_at, shown_answer_of, style_answer_at, style_answer_of, with_style_hints};

use crate::answering::Question;
use crate::methods::{CursorQuery, DocumentQuery};
use bt_documents::Document;
use bt_places::{Cursor, Paper, SHOWN_BYTES, is_style, text_at, wants_declarations};
use bt_positions::Position;
use bt_remarks::{Checked, Remarks, ShownText, check_again, found_for, with_findings};
use bt_rpc::RpcError;
use bt_style_answers::ShownStyle;
use bt_style_text::{RenameRefusal, Word};
use bt_text::Sequence;
use bt_writing::actions_in_style;
use serde_json::Value;
use std::alloc::{AllocError, Global};

/// The most bytes of a style that is checked after each change: 256 KiB.
pub const HINTED_BYTES: usize = 262_144;

/// A document's text as a style.
pub fn shown_style(document: &Document) -> ShownStyle<'_>
    requires { 2 * length document.now.text < 2 ^ 64 }
    ensures uri { result.uri.now ≡ document.now.name }
    ensures counting { result.counting ≡ document.now.counting }
    ensures text { result.text.now ≡ document.now.text }
{
    ShownStyle {
        uri: document.name.as_slice(),
        counting: document.counting,
        text: &document.text,
    }
}

fn error_of(refusal: RenameRefusal) -> RpcError
    ensures { result ≡ error_of refusal }
{
    match refusal {
        RenameRefusal::NotDeclared => RpcError::UndeclaredName,
        RenameRefusal::NoName => RpcError::BadName,
        RenameRefusal::Taken => RpcError::TakenName,
    }
}

/// The outcome of a request that the style may refuse.
fn outcome_for(answer: Result<Value, RenameRefusal>) -> Result<Value, RpcError>
    ensures { outcome_of result ≡ outcome_for (refused_or answer) }
{
    match answer {
        Ok(value) => Ok(value),
        Err(refusal) => Err(error_of(refusal)),
    }
}

fn rename_outcome(
    alloc: Global,
    style: &ShownStyle<'_>,
    at: Position,
    new: Option<&str>,
) -> Result<Result<Value, RpcError>, AllocError>
    ensures { IfOk result (λ o. outcome_of o ≡ rename_outcome style.now.counting style.now.uri.now
        style.now.text.now at (option_map (λ s. s.now) new.entry)) }
{
    match new {
        Some(new) => Ok(outcome_for(style.rename_at(alloc, at, new.as_bytes())?)),
        None => Ok(Err(RpcError::InvalidParams)),
    }
}

impl<P: Paper> Question<'_, P> {
    /// The answer at a position of a style of which the editor shows something.
    fn shown_answer_at(
        &self,
        query: CursorQuery,
        style: &ShownStyle<'_>,
        at: Position,
    ) -> Result<Result<Value, RpcError>, AllocError>
        ensures { IfOk result (λ o. outcome_of o ≡ shown_answer_at self.now.found.now self.now.server.now
            query style.now.counting style.now.uri.now style.now.text.now at (view self.now.message.now)) }
    {
        let alloc = self.alloc;
        match query {
            CursorQuery::Hover => {
                let notes = self.found.notes.as_slice();
                Ok(Ok(style.hover_at(alloc, at, notes, self.server.hovers_plain)?))
            }
            CursorQuery::Definition => Ok(Ok(style.definition_at(alloc, at)?)),
            CursorQuery::References => {
                let with_declarations = wants_declarations(self.message);
                Ok(Ok(style.references_at(alloc, at, with_declarations)?))
            }
            CursorQuery::Rename => {
                rename_outcome(alloc, style, at, text_at(self.message, "/params/newName"))
            }
            CursorQuery::NameRange => Ok(outcome_for(style.renamed_range_at(alloc, at)?)),
            CursorQuery::Completion => Ok(Ok(style.completion_at(alloc, at)?)),
        }
    }

    /// The answer at a position of a style.
    pub fn style_answer_at(
        &self,
        query: CursorQuery,
        cursor: &Cursor<'_>,
    ) -> Result<Result<Value, RpcError>, AllocError>
        ensures { IfOk result (λ o. outcome_of o ≡ style_answer_at self.now.found.now self.now.server.now
            query cursor.now.document.now cursor.now.at (view self.now.message.now)) }
    {
        let Cursor { document, at } = *cursor;
        if document.text.as_slice().len() > SHOWN_BYTES {
            return Ok(Ok(Value::Null));
        }
        self.shown_answer_at(query, &shown_style(document), at)
    }

    fn shown_answer_of(
        &self,
        query: DocumentQuery,
        document: &Document,
    ) -> Result<Value, AllocError>
        requires { 2 * length document.now.text < 2 ^ 64 }
        ensures { IfOk result (λ v. view v ≡ shown_answer_of self.now.server.now
            query document.now (view self.now.message.now)) }
    {
        let alloc = self.alloc;
        match query {
            DocumentQuery::Outline => shown_style(document).symbols(alloc),
            DocumentQuery::Folds => shown_style(document).folds(alloc),
            DocumentQuery::Actions => {
                actions_in_style(alloc, &self.server.editor(), document, self.message)
            }
            DocumentQuery::Format | DocumentQuery::Links => Ok(Value::Null),
        }
    }

    /// The answer for a style.
    pub fn style_answer_of(
        &self,
        query: DocumentQuery,
        document: &Document,
    ) -> Result<Value, AllocError>
        ensures { IfOk result (λ v. view v ≡ style_answer_of self.now.server.now
            query document.now (view self.now.message.now)) }
    {
        if document.text.as_slice().len() > SHOWN_BYTES {
            return Ok(Value::Null);
        }
        self.shown_answer_of(query, document)
    }
}

/// Checks a document, if it is a style whose text is new.
fn check_document<R: Remarks>(
    alloc: Global,
    remarks: &R,
    checked: &mut Sequence<Checked>,
    document: &Document,
) -> Result<(), AllocError> {
    let name = document.name.as_slice();
    let text = document.text.as_slice();
    if !is_style(name) || text.len() > HINTED_BYTES {
        return Ok(());
    }
    check_again(alloc, remarks, checked, name, text)
}

/// Checks the styles whose texts are new.
pub fn check_styles<R: Remarks>(
    alloc: Global,
    remarks: &R,
    checked: &mut Sequence<Checked>,
    documents: &[Document],
) -> Result<(), AllocError> {
    for document in documents {
        check_document(alloc, remarks, checked, document)?;
    }
    Ok(())
}

/// Adds what was found in a style's present text.
fn with_found(
    alloc: Global,
    checked: &[Checked],
    document: &Document,
    list: Vec<Value>,
) -> Result<Vec<Value>, AllocError>
    requires { 2 * length document.now.text < 2 ^ 64 }
    ensures { IfOk result (λ all. map view all.items ≡ map view list.items ++ findings_of checked.now document.now) }
{
    let style = ShownText {
        uri: document.name.as_slice(),
        counting: document.counting,
        text: &document.text,
    };
    let found = found_for(checked, style.uri, style.text.as_slice());
    with_findings(alloc, &style, found, list)
}

/// Adds the hints and the findings for a document, if it is a style. It may have a fault at this word.
pub fn with_style_hints(
    alloc: Global,
    checked: &[Checked],
    fault: Option<Word>,
    document: &Document,
    list: Vec<Value>,
) -> Result<Vec<Value>, AllocError>
    ensures { IfOk result (λ all. map view all.items ≡
        with_style_hints checked.now fault document.now (map view list.items)) }
{
    let size = document.text.as_slice().len();
    if !is_style(document.name.as_slice()) || size > HINTED_BYTES {
        return Ok(list);
    }
    let hints = shown_style(document).with_hints(alloc, fault, list)?;
    let all = with_found(alloc, checked, document, hints)?;
    Ok(all)
}
