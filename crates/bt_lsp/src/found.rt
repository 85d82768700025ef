//! What is found out for a request: about the stack in a style, and about the run. No contract says what that is, only that
//! the answer reports exactly this.

use crate::methods::{CursorQuery, Request, RunQuery};
use crate::server::Server;
use bt_documents::Document;
use bt_effects::stack_notes;
use bt_places::{Cursor, Paper, counting_of, cursor_of, document_of, is_style, place_of};
use bt_positions::IndexedText;
use bt_remarks::{Lens, Origin};
use bt_text::{Bytes, Sequence};
use serde_json::Value;
use std::alloc::{AllocError, Global};

/// The most bytes of a style whose functions are run for a hover: 256 KiB.
const NOTED_BYTES: usize = 262_144;

/// What is found out for a request.
#[derive(Drop)]
pub struct Found {
    /// What there is to say of the stack at the cursor.
    pub notes: Bytes,
    /// What stands over lines of the document.
    pub lenses: Sequence<Lens>,
    /// Where a byte of the bibliography comes from.
    pub origin: Option<Origin>,
}

fn nothing(alloc: Global) -> Found {
    Found {
        notes: Bytes::new(alloc),
        lenses: Sequence::new(alloc),
        origin: None,
    }
}

fn notes_at(alloc: Global, cursor: &Cursor<'_>) -> Result<Bytes, AllocError> {
    let Cursor { document, at } = *cursor;
    let text = document.text.as_slice();
    if !is_style(document.name.as_slice()) || text.len() > NOTED_BYTES {
        return Ok(Bytes::new(alloc));
    }
    let place = document.text.offset_of(document.counting, at);
    stack_notes(alloc, text, place)
}

fn with_notes(alloc: Global, documents: &[Document], message: &Value) -> Result<Found, AllocError> {
    let mut found = nothing(alloc);
    if let Some(cursor) = place_of(documents, message) {
        found.notes = notes_at(alloc, &cursor)?;
    }
    Ok(found)
}

fn with_lenses<P: Paper>(
    alloc: Global,
    server: &Server<P>,
    message: &Value,
) -> Result<Found, AllocError> {
    let mut found = nothing(alloc);
    if let Some(document) = document_of(server.documents.as_slice(), message)
        && document.in_step
    {
        found.lenses = server.paper.lenses(alloc, document.name.as_slice())?;
    }
    Ok(found)
}

/// The line and the column of an offset, as the run's lines count.
fn line_and_column(text: &[u8], offset: usize) -> (usize, usize) {
    let (front, _) = text.split_at(offset.min(text.len()));
    let line = front.iter().filter(|byte| **byte == b'\n').count();
    let column = front
        .iter()
        .rev()
        .take_while(|byte| **byte != b'\n')
        .count();
    (line, column)
}

fn with_origin<P: Paper>(
    alloc: Global,
    server: &Server<P>,
    message: &Value,
) -> Result<Found, AllocError> {
    let mut found = nothing(alloc);
    if let Some(at) = cursor_of(message) {
        let paper = &server.paper;
        let text = IndexedText::new(alloc, Vec::from_slice(alloc, paper.bibliography())?)?;
        let offset = text.offset_of(counting_of(server.counts_bytes), at);
        let (line, column) = line_and_column(text.as_slice(), offset);
        found.origin = paper.origin(alloc, line, column)?;
    }
    Ok(found)
}

/// What is found out for a request.
pub fn found_for<P: Paper>(
    alloc: Global,
    server: &Server<P>,
    request: Request,
    message: &Value,
) -> Result<Found, AllocError> {
    match request {
        Request::AtCursor(CursorQuery::Hover) => {
            with_notes(alloc, server.documents.as_slice(), message)
        }
        Request::OfRun(RunQuery::Lenses) => with_lenses(alloc, server, message),
        Request::OfRun(RunQuery::Origin) => with_origin(alloc, server, message),
        _ => Ok(nothing(alloc)),
    }
}
