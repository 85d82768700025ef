//! What notifications do to the documents.

ghost use Rattle.std.specs.Prelude.{◌≡◌, ℕ, List, Option, IfOk, OnErr};
ghost use Rattle.serde_json.specs.View.{view};
ghost use Rattle.bt_documents.specs.Documents.{Follows};
ghost use Rattle.bt_places.specs.Words.{counting_for};
ghost use Rattle.bt_lsp.specs.Taken.{IsOpened, IsChanged, IsClosed, Taken};

use crate::changes::changes_of;
use crate::methods::{Notice, Notification};
use crate::server::Server;
use bt_documents::{Document, change, close, open};
use bt_places::{Paper, bytes_of, document_named, text_at, version_at};
use bt_positions::{Counting, IndexedText};
use bt_text::{Bytes, Sequence};
use serde_json::Value;
use std::alloc::{AllocError, Global};

/// A notification that wasn't taken: it can't be read, or memory ran out.
#[derive(Clone, Copy, Debug, PartialEq, Eq)]
pub struct Untaken;

impl From<AllocError> for Untaken {
    fn from(_value: AllocError) -> Untaken {
        Untaken
    }
}

fn counting_for(counts_bytes: bool, is_latin: bool) -> Counting
    ensures { result ≡ counting_for counts_bytes is_latin }
{
    match (counts_bytes, is_latin) {
        (true, true) => Counting::LatinAsUtf8,
        (true, false) => Counting::Utf8,
        (false, true) => Counting::LatinAsUtf16,
        (false, false) => Counting::Utf16,
    }
}

fn take_opened<P: Paper>(
    alloc: Global,
    paper: &P,
    documents: &mut Sequence<Document>,
    counts_bytes: bool,
    message: &Value,
) -> Result<(), Untaken>
    ensures taken { IfOk result (λ _. IsOpened counts_bytes (view message.now) documents.old documents.new) }
    ensures follows { (text : List ℕ → Option (List ℕ)) → Follows text documents.old → Follows text documents.new }
    ensures err { OnErr result (documents.new ≡ documents.old) }
{
    let Some(uri) = text_at(message, "/params/textDocument/uri") else {
        return Err(Untaken);
    };
    let Some(text) = text_at(message, "/params/textDocument/text") else {
        return Err(Untaken);
    };
    let version = version_at(message, "/params/textDocument/version");
    let is_latin = paper.is_latin(alloc, uri, text)?;
    let counting = counting_for(counts_bytes, is_latin);
    let name = Bytes::copied(alloc, uri.as_bytes())?;
    let bytes = bytes_of(alloc, counting, text)?;
    let indexed = IndexedText::new(alloc, bytes.into_vec())?;
    open(documents, name, counting, version, indexed)?;
    Ok(())
}

/// Makes the changes that a message says.
pub fn take_changed(
    alloc: Global,
    documents: &mut Sequence<Document>,
    message: &Value,
) -> Result<(), Untaken>
    ensures taken { IfOk result (λ _. IsChanged (view message.now) documents.old documents.new) }
    ensures follows { (text : List ℕ → Option (List ℕ)) → Follows text documents.old → Follows text documents.new }
    ensures err { OnErr result (documents.new ≡ documents.old) }
{
    let Some(uri) = text_at(message, "/params/textDocument/uri") else {
        return Err(Untaken);
    };
    let Some(document) = document_named(documents.as_slice(), uri.as_bytes()) else {
        return Err(Untaken);
    };
    let Some(changes) = changes_of(alloc, document.counting, message)? else {
        return Err(Untaken);
    };
    let version = version_at(message, "/params/textDocument/version");
    change(
        alloc,
        documents,
        uri.as_bytes(),
        version,
        changes.as_slice(),
    )?;
    Ok(())
}

fn take_closed(
    alloc: Global,
    documents: &mut Sequence<Document>,
    message: &Value,
) -> Result<(), Untaken>
    ensures taken { IfOk result (λ _. IsClosed (view message.now) documents.old documents.new) }
    ensures follows { (text : List ℕ → Option (List ℕ)) → Follows text documents.old → Follows text documents.new }
    ensures err { OnErr result (documents.new ≡ documents.old) }
{
    let Some(uri) = text_at(message, "/params/textDocument/uri") else {
        return Err(Untaken);
    };
    close(alloc, documents, uri.as_bytes());
    Ok(())
}

/// Does to the documents what a notification says. The paper gets their new texts later.
pub fn take<P: Paper>(
    alloc: Global,
    server: &mut Server<P>,
    notification: &Notification<'_>,
) -> Result<(), Untaken>
    ensures taken { IfOk result (λ _. Taken server.old.counts_bytes notification.now.notice
        (view notification.now.message.now) server.old.documents server.new.documents) }
    ensures follows { (text : List ℕ → Option (List ℕ)) →
        Follows text server.old.documents → Follows text server.new.documents }
    ensures err { OnErr result (server.new ≡ server.old) }
    ensures rest { server.new ≡ record server.old { documents = server.new.documents } }
{
    let Notification { notice, message } = *notification;
    let documents = &mut server.documents;
    match notice {
        Notice::Opened => {
            take_opened(
                alloc,
                &server.paper,
                documents,
                server.counts_bytes,
                message,
            )
        }
        Notice::Changed => take_changed(alloc, documents, message),
        Notice::Closed => take_closed(alloc, documents, message),
        Notice::Saved | Notice::Exit | Notice::Other => Ok(()),
    }
}
