//! The answers to requests that change nothing.

ghost use Rattle.std.specs.Prelude.{◌≡◌, IfOk};
ghost use Rattle.serde_json.specs.View.{view};
ghost use Rattle.bt_talk.specs.Replies.{outcome_of};
ghost use Rattle.bt_places.specs.Shapes.{shown_text};
ghost use Rattle.bt_lsp.specs.Answering.{text_answer_at, answer_at, text_answer_of, answer_of, bibliography_answer, paper_answer, run_answer, answer_to};

use crate::found::Found;
use crate::methods::{CursorQuery, DocumentQuery, PaperQuery, Request, RunQuery};
use crate::server::Server;
use bt_answers::{
    folds_of, format_edits, hovered_at, lens_values, links_of, name_range_at, origin_value,
    references_at, rename_at, symbols_for, symbols_of,
};
use bt_documents::Document;
use bt_places::{
    Cursor, Paper, document_of, is_style, place_of, shown_status, shown_text, text_at,
    wants_declarations,
};
use bt_rpc::RpcError;
use bt_writing::{actions_for, completion_at, definition_at};
use serde_json::Value;
use std::alloc::{AllocError, Global};

/// A request's message, and what its answer depends on: the desk, and what was found out for it.
#[derive(Drop)]
pub struct Question<'a, P> {
    pub alloc: Global,
    pub server: &'a Server<P>,
    pub found: &'a Found,
    pub message: &'a Value,
}

impl<P: Paper> Question<'_, P> {
    /// The answer at a position of a document that is no style.
    fn text_answer_at(
        &self,
        query: CursorQuery,
        cursor: &Cursor<'_>,
    ) -> Result<Result<Value, RpcError>, AllocError>
        ensures { IfOk result (λ o. outcome_of o ≡
            text_answer_at P.shown self.now.server.now query cursor.now.document.now cursor.now.at (view self.now.message.now)) }
    {
        let alloc = self.alloc;
        let paper = &self.server.paper;
        let workspace = self.server.workspace();
        match query {
            CursorQuery::Hover => {
                let plain = self.server.hovers_plain;
                Ok(Ok(hovered_at(alloc, paper, plain, cursor)?))
            }
            CursorQuery::Definition => Ok(Ok(definition_at(alloc, &workspace, cursor)?)),
            CursorQuery::References => {
                let with_declarations = wants_declarations(self.message);
                Ok(Ok(references_at(alloc, &workspace, cursor, with_declarations)?))
            }
            CursorQuery::Rename => {
                let new = text_at(self.message, "/params/newName");
                rename_at(alloc, &workspace, cursor, new)
            }
            CursorQuery::NameRange => name_range_at(alloc, &workspace, cursor),
            CursorQuery::Completion => Ok(Ok(completion_at(alloc, paper, cursor)?)),
        }
    }

    /// The answer for a document that is no style.
    fn text_answer_of(&self, query: DocumentQuery, document: &Document) -> Result<Value, AllocError>
        ensures { IfOk result (λ v. view v ≡
            text_answer_of P.shown self.now.server.now query document.now (view self.now.message.now)) }
    {
        match query {
            DocumentQuery::Outline => symbols_of(self.alloc, document),
            DocumentQuery::Folds => folds_of(self.alloc, document),
            DocumentQuery::Format => format_edits(self.alloc, document, self.message),
            DocumentQuery::Actions => actions_for(self.alloc, document, self.message),
            DocumentQuery::Links => links_of(self.alloc, &self.server.paper, document),
        }
    }

    fn answer_at(
        &self,
        query: CursorQuery,
        cursor: &Cursor<'_>,
    ) -> Result<Result<Value, RpcError>, AllocError>
        ensures { IfOk result (λ o. outcome_of o ≡
            answer_at P.shown self.now.found.now self.now.server.now query cursor.now.document.now cursor.now.at
            (view self.now.message.now)) }
    {
        if is_style(cursor.document.name.as_slice()) {
            self.style_answer_at(query, cursor)
        } else {
            self.text_answer_at(query, cursor)
        }
    }

    fn answer_of(&self, query: DocumentQuery, document: &Document) -> Result<Value, AllocError>
        ensures { IfOk result (λ v. view v ≡
            answer_of P.shown self.now.server.now query document.now (view self.now.message.now)) }
    {
        if is_style(document.name.as_slice()) {
            self.style_answer_of(query, document)
        } else {
            self.text_answer_of(query, document)
        }
    }

    fn entry_answer(&self, key: &[u8]) -> Result<Value, AllocError>
        ensures { IfOk result (λ v. view v ≡ shown_text ((P.shown self.now.server.now.paper).entry_text key.now)
            (P.shown self.now.server.now.paper).status) }
    {
        let paper = &self.server.paper;
        let text = paper.entry_text(key)?;
        shown_text(self.alloc, text.as_slice(), paper.status())
    }

    /// The bibliography, or what one entry prints, if the message has its key.
    fn bibliography_answer(&self) -> Result<Value, AllocError>
        ensures { IfOk result (λ v. view v ≡
            bibliography_answer (P.shown self.now.server.now.paper) (view self.now.message.now)) }
    {
        let paper = &self.server.paper;
        match text_at(self.message, "/params/key") {
            Some(key) => self.entry_answer(key.as_bytes()),
            None => shown_text(self.alloc, paper.bibliography(), paper.status()),
        }
    }

    fn paper_answer(&self, query: PaperQuery) -> Result<Value, AllocError>
        ensures { IfOk result (λ v. view v ≡
            paper_answer P.shown self.now.server.now query (view self.now.message.now)) }
    {
        let alloc = self.alloc;
        let paper = &self.server.paper;
        match query {
            PaperQuery::Bibliography => self.bibliography_answer(),
            PaperQuery::Log => shown_text(alloc, paper.log(), paper.status()),
            PaperQuery::Status => shown_status(alloc, paper.status()),
            PaperQuery::Symbols => { symbols_for(alloc, &self.server.workspace(), self.message) }
        }
    }

    /// The answer about the run, by what was found out for it.
    fn run_answer(&self, query: RunQuery) -> Result<Value, AllocError>
        ensures { IfOk result (λ v. view v ≡ run_answer self.now.found.now query) }
    {
        match query {
            RunQuery::Lenses => lens_values(self.alloc, self.found.lenses.as_slice()),
            RunQuery::Origin => origin_value(self.alloc, self.found.origin.as_ref()),
        }
    }

    /// The outcome of a request that changes nothing.
    pub fn answer_to(&self, request: Request) -> Result<Result<Value, RpcError>, AllocError>
        ensures { IfOk result (λ outcome. outcome_of outcome ≡
            answer_to P.shown self.now.found.now self.now.server.now (view self.now.message.now) request) }
    {
        let documents = self.server.documents.as_slice();
        match request {
            Request::AtCursor(query) => match place_of(documents, self.message) {
                Some(cursor) => self.answer_at(query, &cursor),
                None => Ok(Err(RpcError::InvalidParams)),
            },
            Request::OfDocument(query) => match document_of(documents, self.message) {
                Some(document) => Ok(Ok(self.answer_of(query, document)?)),
                None => Ok(Err(RpcError::InvalidParams)),
            },
            Request::OfPaper(query) => Ok(Ok(self.paper_answer(query)?)),
            Request::OfRun(query) => Ok(Ok(self.run_answer(query)?)),
            Request::Initialize | Request::Shutdown => Ok(Err(RpcError::InvalidRequest)),
            Request::Unknown => Ok(Err(RpcError::MethodNotFound)),
        }
    }
}
