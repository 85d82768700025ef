//! A session's files, and which of them an editor holds open.

ghost use Rattle.std.specs.Prelude.{◌≡◌, Some};
ghost use Rattle.bt_paper.specs.Paper.{text_at, is_among, KeepsTexts, KeepsOthers};

use crate::finding::Found;
use crate::giving::{give, lacks, replace, taken};
use crate::known::{Known, name_of, note};
use bt_documents::{Document, Written};
use bt_session::AuthorSession;
use bt_text::{Bytes, Sequence};
use std::alloc::{AllocError, Global};

/// Whether one of the documents has this name.
pub fn is_among(documents: &[Document], name: &[u8]) -> bool
    ensures { result ≡ is_among name.now documents.now }
{
    'documents: for document in documents {
        if document.name.as_slice() == name {
            return true;
        }
    }
    false
}

/// Gives a session a file, if it has none of its name. Says whether it took it.
pub fn add(
    alloc: Global,
    session: &mut AuthorSession,
    known: &mut Sequence<Known>,
    found: Found,
) -> Result<bool, AllocError>
    ensures { KeepsTexts (text_at (Some session.old) known.old) (text_at (Some session.new) known.new) }
{
    let Found { file, text } = found;
    let name = Bytes::copied(alloc, file.name.as_slice())?;
    if !lacks(session, name.as_slice()) {
        return Ok(false);
    }
    note(known, file)?;
    let written = give(session, name.as_slice(), text.as_slice());
    taken(written)
}

/// Gives the file at a URI the text that was read for it, or takes the file away if there is none. Says what the session did.
pub fn reread(
    session: &mut AuthorSession,
    known: &[Known],
    uri: &[u8],
    text: Option<Bytes>,
) -> Written
    ensures { KeepsOthers uri.now (text_at (Some session.old) known.now) (text_at (Some session.new) known.now) }
{
    let Some(name) = name_of(known, uri) else {
        return Written::Refused;
    };
    replace(session, name, text)
}
