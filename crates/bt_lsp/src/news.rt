//! What the editor is told after a change: the diagnostics of each open document.

ghost use Rattle.std.specs.Prelude.{◌≡◌, ◌<◌, ◌*◌, ◌^◌, ◌++◌, [], length, map, IfOk};
ghost use Rattle.serde_json.specs.View.{view};
ghost use Rattle.bt_lsp.specs.News.{run_name, shows, shown_of, is_run_style, fault_for, style_values, values_of, publication_of, warning_params, warning, lost_words, behind_words, warned, warnings, cleared, all_published, news};
ghost use Rattle.bt_places.specs.Shapes.{publication};

use crate::announcing::with_announced;
use crate::methods::{Notice, Notification};
use crate::placing::{OpenStyle, fault_in};
use crate::server::Server;
use crate::styles::{HINTED_BYTES, with_style_hints};
use bt_answers::{diagnostics_in, keys_of, with_faults, with_hints};
use bt_diagnostics::{Diagnostic, FileText, diagnostics};
use bt_documents::Document;
use bt_places::{Paper, SHOWN_BYTES, is_style, is_tex, publication, text_at};
use bt_rpc::notification;
use bt_style_text::Word;
use bt_text::Sequence;
use serde_json::{Value, json};
use std::alloc::{AllocError, Global};

/// The name that the run has for a document's file; empty if it has none.
pub fn run_name<'a, P: Paper>(paper: &'a P, document: &Document) -> &'a [u8]
    ensures { result.now ≡ run_name (P.shown paper.now) document.now }
{
    match paper.name(document.name.as_slice()) {
        Some(name) => name,
        None => &[],
    }
}

/// Whether messages are shown in a document: the run has its text, or it is a LaTeX text, which cites keys.
fn shows(document: &Document) -> bool
    ensures { result ≡ shows document.now }
{
    document.in_step || is_tex(document.name.as_slice())
}

/// The diagnostics of a document.
fn shown_of<P: Paper>(
    alloc: Global,
    paper: &P,
    document: &Document,
) -> Result<Sequence<Diagnostic>, AllocError>
    ensures { IfOk result (λ shown. shown ≡ shown_of (P.shown paper.now) document.now) }
{
    if !shows(document) || document.text.as_slice().len() > SHOWN_BYTES {
        return Ok(Sequence::new(alloc));
    }
    let keys = keys_of(alloc, paper, document)?;
    let file = FileText {
        name: run_name(paper, document),
        counting: document.counting,
        text: &document.text,
    };
    diagnostics(alloc, &file, &keys, paper.messages())
}

/// Whether a document is a style of which the run has the text, and small enough to be read several times.
pub fn is_run_style(document: &Document) -> bool
    ensures { result ≡ is_run_style document.now }
{
    document.in_step
        && is_style(document.name.as_slice())
        && document.text.as_slice().len() <= HINTED_BYTES
}

/// The word of the fault of the run's style, if a document is that and the word is known.
fn fault_for<P: Paper>(
    alloc: Global,
    paper: &P,
    document: &Document,
) -> Result<Option<Word>, AllocError>
    ensures { IfOk result (λ word. word ≡ fault_for (P.shown paper.now) document.now) }
{
    if !is_run_style(document) {
        return Ok(None);
    }
    fault_in(
        alloc,
        run_name(paper, document),
        &document.text,
        paper.messages(),
    )
}

/// The diagnostics of a style, at its words.
fn style_values<P: Paper>(
    alloc: Global,
    server: &Server<P>,
    fault: Option<Word>,
    document: &Document,
) -> Result<Vec<Value>, AllocError>
    requires { 2 * length document.now.text < 2 ^ 64 }
    ensures { IfOk result (λ list. map view list.items ≡ style_values P.shown server.now fault document.now) }
{
    let paper = &server.paper;
    let keys = keys_of(alloc, paper, document)?;
    let style = OpenStyle {
        alloc,
        name: run_name(paper, document),
        document,
        keys: &keys,
        fault,
        relates: server.shows_related,
    };
    let words = server.step_words.as_slice();
    let list = style.all_diagnostics(words, paper.messages())?;
    Ok(list)
}

fn values_of<P: Paper>(
    alloc: Global,
    server: &Server<P>,
    fault: Option<Word>,
    document: &Document,
) -> Result<Vec<Value>, AllocError>
    ensures { IfOk result (λ list. map view list.items ≡ values_of P.shown server.now fault document.now) }
{
    if is_run_style(document) {
        return style_values(alloc, server, fault, document);
    }
    let shown = shown_of(alloc, &server.paper, document)?;
    let list = diagnostics_in(alloc, server.shows_related, document, shown.as_slice())?;
    Ok(list)
}

/// The notification that publishes the diagnostics of a document.
fn publication_of<P: Paper>(
    alloc: Global,
    server: &Server<P>,
    document: &Document,
) -> Result<Value, AllocError>
    ensures { IfOk result (λ v. view v ≡ publication_of P.shown server.now document.now) }
{
    let paper = &server.paper;
    let fault = fault_for(alloc, paper, document)?;
    let list = values_of(alloc, server, fault, document)?;
    let list = with_faults(alloc, paper, document, list)?;
    let list = with_hints(alloc, paper, document, list)?;
    let list = with_style_hints(alloc, server.checked.as_slice(), fault, document, list)?;
    publication(alloc, document.name.as_slice(), list)
}

/// What the editor is told if a message was lost.
fn lost_words() -> &'static str
    ensures { result.now ≡ lost_words }
{
    "bibtex-lsp lost a message. Close the changed files and open them again."
}

/// What it is told if memory ran out for a document's text.
fn behind_words() -> &'static str
    ensures { result.now ≡ behind_words }
{
    "bibtex-lsp is out of memory: the bibliography lags behind. It tries again with your next change."
}

fn warning_params(alloc: Global, words: &str) -> Result<Value, AllocError>
    ensures { IfOk result (λ v. view v ≡ warning_params words.now) }
{
    json!(in alloc; {"type": 2, "message": words})
}

/// A warning in these words.
pub fn warning(alloc: Global, words: &str) -> Result<Value, AllocError>
    ensures { IfOk result (λ v. view v ≡ warning words.now) }
{
    let params = warning_params(alloc, words)?;
    let message = notification(alloc, "window/showMessage", &params)?;
    Ok(message)
}

fn lost_warning(alloc: Global, lost: bool) -> Result<Vec<Value>, AllocError>
    ensures { IfOk result (λ told. map view told.items ≡ warned lost_words lost) }
{
    let mut told = Vec::new(alloc);
    if lost {
        told.push(warning(alloc, lost_words())?)?;
    }
    Ok(told)
}

/// Tells the editor that a closed document has no diagnostics.
fn no_diagnostics(alloc: Global, uri: &str) -> Result<Value, AllocError>
    ensures { IfOk result (λ v. view v ≡ publication uri.now []) }
{
    publication(alloc, uri.as_bytes(), Vec::new(alloc))
}

/// The warnings: that a message was lost, and that memory ran out for a document's text.
fn warnings(alloc: Global, lost: bool, behind: bool) -> Result<Vec<Value>, AllocError>
    ensures { IfOk result (λ told. map view told.items ≡ warnings lost behind) }
{
    let mut told = lost_warning(alloc, lost)?;
    if behind {
        told.push(warning(alloc, behind_words())?)?;
    }
    Ok(told)
}

/// What comes before the diagnostics of the open documents.
pub fn first_news(
    alloc: Global,
    lost: bool,
    behind: bool,
    notification: &Notification<'_>,
) -> Result<Vec<Value>, AllocError>
    ensures { IfOk result (λ told. map view told.items ≡ warnings lost behind ++
        cleared notification.now.notice (view notification.now.message.now)) }
{
    let mut told = warnings(alloc, lost, behind)?;
    if notification.notice == Notice::Closed
        && let Some(uri) = text_at(notification.message, "/params/textDocument/uri")
    {
        told.push(no_diagnostics(alloc, uri)?)?;
    }
    Ok(told)
}

fn with_diagnostics<P: Paper>(
    alloc: Global,
    server: &Server<P>,
    documents: &[Document],
    first: Vec<Value>,
) -> Result<Vec<Value>, AllocError>
    ensures { IfOk result (λ told. map view told.items ≡
        map view first.items ++ all_published P.shown server.now documents.now) }
{
    let mut told = first;
    'documents: for document in documents {
        told.push(publication_of(alloc, server, document)?)?;
    }
    Ok(told)
}

/// What comes first, then the diagnostics of each open document, and what is announced.
pub fn news<P: Paper>(
    alloc: Global,
    server: &Server<P>,
    first: Vec<Value>,
) -> Result<Vec<Value>, AllocError>
    ensures { IfOk result (λ told. map view told.items ≡ news P.shown server.now (map view first.items)) }
{
    let list = with_diagnostics(alloc, server, server.documents.as_slice(), first)?;
    let told = with_announced(alloc, &server.paper, server.announced, list)?;
    Ok(told)
}
