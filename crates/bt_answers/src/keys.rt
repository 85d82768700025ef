//! The keys of a document at which the run's messages about entries are shown: in a database those of its entries, in any
//! other text the citations.

ghost use Rattle.std.specs.Prelude.{◌≡◌, IfOk};
ghost use Rattle.std.specs.List.{list_any};
ghost use Rattle.bt_text.specs.ByName.{known};
ghost use Rattle.bt_diagnostics.specs.Keys.{is_at_key};
ghost use Rattle.bt_answers.specs.Keys.{role_of, first_in, keys_in, spans_of, key_spans};

use crate::hints::is_small;
use bt_diagnostics::{KeyRole, Keys, Span, is_at_key};
use bt_documents::Document;
use bt_log::Message;
use bt_mentions::{Mention, entry_keys, part};
use bt_places::{Paper, citations_of, is_database, is_style, is_tex};
use bt_text::{ByName, Sequence};
use std::alloc::{AllocError, Global};

fn role_of(name: &[u8]) -> KeyRole
    ensures { result ≡ role_of name.now }
{
    if is_database(name) {
        KeyRole::Entry
    } else {
        KeyRole::Citation
    }
}

/// Where a text mentions each key first. The last mention is put in first, so that earlier ones take its place.
fn first_in(alloc: Global, text: &[u8], found: &[Mention]) -> Result<ByName<Span>, AllocError>
    ensures { IfOk result (λ spans. known spans ≡ first_in text.now found.now) }
{
    let mut spans = ByName::new(alloc);
    let mut n = found.len();
    'found: while n > 0 {
        n -= 1;
        let one = found[n];
        let span = Span {
            begin: one.from,
            end: one.to,
        };
        spans.insert(alloc, part(text, one.from, one.to), span)?;
    }
    Ok(spans)
}

/// The keys of a document: in a database those of its entries, in any other text the citations. Small papers have hints at
/// citations in LaTeX texts.
fn keys_in<P: Paper>(
    alloc: Global,
    paper: &P,
    document: &Document,
) -> Result<Sequence<Mention>, AllocError>
    ensures { IfOk result (λ found. found ≡ keys_in (P.shown paper.now).files document.now) }
{
    let name = document.name.as_slice();
    let text = document.text.as_slice();
    if is_database(name) {
        entry_keys(alloc, text)
    } else if is_style(name) || is_tex(name) && is_small(paper) {
        Ok(Sequence::new(alloc))
    } else {
        citations_of(alloc, name, text)
    }
}

fn spans_of<P: Paper>(
    alloc: Global,
    paper: &P,
    document: &Document,
) -> Result<ByName<Span>, AllocError>
    ensures { IfOk result (λ spans. known spans ≡ spans_of (P.shown paper.now).files document.now) }
{
    let found = keys_in(alloc, paper, document)?;
    let spans = first_in(alloc, document.text.as_slice(), found.as_slice())?;
    Ok(spans)
}

fn is_any_at_key(role: KeyRole, messages: &[Message]) -> bool
    ensures { result ≡ list_any (is_at_key role) messages.now }
{
    messages.iter().any(|message| is_at_key(role, message))
}

fn key_spans<P: Paper>(
    alloc: Global,
    paper: &P,
    document: &Document,
) -> Result<ByName<Span>, AllocError>
    ensures { IfOk result (λ spans. known spans ≡ key_spans (P.shown paper.now) document.now) }
{
    if !is_any_at_key(role_of(document.name.as_slice()), paper.messages()) {
        return Ok(ByName::new(alloc));
    }
    let spans = spans_of(alloc, paper, document)?;
    Ok(spans)
}

/// The keys of a document at which messages are shown.
pub fn keys_of<P: Paper>(alloc: Global, paper: &P, document: &Document) -> Result<Keys, AllocError>
    ensures role { IfOk result (λ keys. keys.role ≡ role_of document.now.name) }
    ensures spans { IfOk result (λ keys. known keys.spans ≡ key_spans (P.shown paper.now) document.now) }
{
    let spans = key_spans(alloc, paper, document)?;
    Ok(Keys {
        role: role_of(document.name.as_slice()),
        spans,
    })
}
