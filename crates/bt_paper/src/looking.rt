//! What the run made of a file, and where a byte of its bibliography comes from.

use crate::known::{Known, name_of, uri_named};
use bt_lenses::{Ran, lenses, origin_at};
use bt_origins::{NamedText, style_named};
use bt_remarks::{FileLine, Lens, Origin, StepWord};
use bt_session::AuthorSession;
use bt_step_words::{TracedRun, step_words};
use bt_text::{Bytes, Sequence};
use std::alloc::{AllocError, Global};

fn named<'a>(
    alloc: Global,
    session: &'a AuthorSession,
    known: &'a [Known],
) -> Result<Vec<NamedText<'a>>, AllocError> {
    let mut files = Vec::new(alloc);
    for one in known {
        let name = one.name.as_slice();
        if let Some(text) = session.file(name) {
            files.push(NamedText { name, text })?;
        }
    }
    Ok(files)
}

fn ran_of<'a>(alloc: Global, session: &'a AuthorSession, files: &'a [NamedText<'a>]) -> Ran<'a> {
    Ran {
        alloc,
        files,
        messages: session.messages(),
        kept: session.kept(),
        bbl: session.bbl(),
    }
}

/// What stands over lines of the file at a URI.
pub fn lenses_at(
    alloc: Global,
    session: &AuthorSession,
    known: &[Known],
    uri: &[u8],
) -> Result<Sequence<Lens>, AllocError> {
    let Some(name) = name_of(known, uri) else {
        return Ok(Sequence::new(alloc));
    };
    let files = named(alloc, session, known)?;
    lenses(ran_of(alloc, session, files.as_slice()), name)
}

/// For each message of the run the word that ran when it came, if the file at a URI is the run's style.
pub fn step_words_at(
    alloc: Global,
    session: &AuthorSession,
    known: &[Known],
    uri: &[u8],
) -> Result<Sequence<Option<StepWord>>, AllocError> {
    let (Some(name), Some(style)) = (name_of(known, uri), style_named(session.messages())) else {
        return Ok(Sequence::new(alloc));
    };
    let Some(text) = session.file(name) else {
        return Ok(Sequence::new(alloc));
    };
    if name != style {
        return Ok(Sequence::new(alloc));
    }
    step_words(TracedRun {
        alloc,
        messages: session.messages(),
        kept: session.kept(),
        text,
    })
}

/// The same line of the file by its URI.
fn with_uri(
    alloc: Global,
    known: &[Known],
    at: Option<FileLine>,
) -> Result<Option<FileLine>, AllocError> {
    let Some(at) = at else {
        return Ok(None);
    };
    match uri_named(known, at.file.as_slice()) {
        Some(uri) => Ok(Some(FileLine {
            file: Bytes::copied(alloc, uri)?,
            line: at.line,
        })),
        None => Ok(None),
    }
}

fn under_uris(alloc: Global, known: &[Known], origin: Origin) -> Result<Origin, AllocError> {
    let Origin { words, field, word } = origin;
    Ok(Origin {
        words,
        field: with_uri(alloc, known, field)?,
        word: with_uri(alloc, known, word)?,
    })
}

/// Where a byte of the bibliography comes from. Its files are URIs.
pub fn origin_of(
    alloc: Global,
    session: &AuthorSession,
    known: &[Known],
    line: usize,
    column: usize,
) -> Result<Option<Origin>, AllocError> {
    let files = named(alloc, session, known)?;
    match origin_at(ran_of(alloc, session, files.as_slice()), line, column)? {
        Some(origin) => Ok(Some(under_uris(alloc, known, origin)?)),
        None => Ok(None),
    }
}
