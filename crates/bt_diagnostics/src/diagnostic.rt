//! The diagnostics of a run in a document.

ghost use Rattle.std.specs.Prelude.{◌≡◌, ◌<◌, ◌*◌, ◌^◌, length, IfOk, IfSome, OnOk, ◌≤◌};
ghost use Rattle.bt_diagnostics.specs.Diagnostics.{severity_of, span_at, span_for, words_of, diagnostic_of, diagnostics};
ghost use Rattle.bt_text.specs.ByName.{known};

use crate::keys::{Keys, key_span};
use crate::spans::{Span, span_of};
use bt_log::{Message, Place, Rank, add_said};
use bt_positions::{Counting, IndexedText, Position};
use bt_text::{Bytes, Sequence};
use std::alloc::{AllocError, Global};

/// The text of the file with this name, in the units of its editor.
#[derive(Clone, Copy)]
pub struct FileText<'a> {
    pub name: &'a [u8],
    pub counting: Counting,
    pub text: &'a IndexedText,
}

/// What an editor shows of a message: its words at a part of the text.
#[derive(Drop)]
pub struct Diagnostic {
    pub from: Position,
    pub to: Position,
    /// The protocol's number: 1 for an error, 2 for a warning, 3 for a note.
    pub severity: u8,
    pub words: Bytes,
}

/// The severity of a rank; none if its messages aren't shown.
fn severity_of(rank: Rank) -> Option<u8>
    ensures { result ≡ severity_of rank }
{
    match rank {
        Rank::FileLine | Rank::CallCount => None,
        Rank::Note => Some(3),
        Rank::Warning => Some(2),
        Rank::Error | Rank::Fatal => Some(1),
    }
}

/// The part of a file's text that a place means, if it lies in that file.
fn span_at(name: &[u8], text: &IndexedText, place: &Option<Place>) -> Option<Span>
    ensures value { result ≡ span_at name.now text.now place.now }
    ensures begin { IfSome result (λ s. s.begin ≤ length text.now) }
    ensures end { IfSome result (λ s. s.end ≤ length text.now) }
{
    match place {
        Some(Place::Line { file, line, byte }) => {
            if file.as_slice() == name {
                Some(span_of(text, *line, *byte))
            } else {
                None
            }
        }
        Some(Place::WholeFile { file }) => {
            if file.as_slice() == name {
                Some(span_of(text, 1, None))
            } else {
                None
            }
        }
        Some(Place::Step { style, line }) => {
            if style.as_slice() == name {
                Some(span_of(text, *line as u128, None))
            } else {
                None
            }
        }
        Some(Place::DatabaseLine { .. }) | None => None,
    }
}

/// What a message says, and its second line if it has one.
fn words_of(alloc: Global, message: &Message) -> Result<Bytes, AllocError>
    ensures { IfOk result (λ words. words ≡ words_of message.now) }
{
    let mut words = Bytes::new(alloc);
    add_said(&mut words, &message.said)?;
    if let Some(more) = &message.second {
        words.append_all(&[b"\n", more.as_slice()])?;
    }
    Ok(words)
}

/// The part of a document's text at which a message is shown: its place, or else the key that it is about.
fn span_for(
    alloc: Global,
    file: &FileText<'_>,
    keys: &Keys,
    message: &Message,
) -> Result<Option<Span>, AllocError>
    ensures { IfOk result (λ span. span ≡ span_for file.now.name.now file.now.text.now keys.now.role (known keys.now.spans) message.now) }
{
    match span_at(file.name, file.text, &message.place) {
        Some(span) => Ok(Some(span)),
        None => key_span(alloc, keys, message),
    }
}

/// The diagnostic of a message in a document; none if it belongs elsewhere or isn't shown.
fn diagnostic_of(
    alloc: Global,
    file: &FileText<'_>,
    keys: &Keys,
    message: &Message,
) -> Result<Option<Diagnostic>, AllocError>
    requires { 2 * length file.now.text.now < 2 ^ 64 }
    ensures { IfOk result (λ shown. shown ≡ diagnostic_of file.now.name.now file.now.counting file.now.text.now
        keys.now.role (known keys.now.spans) message.now) }
{
    let FileText { counting, text, .. } = *file;
    let len = text.as_slice().len();
    let span = span_for(alloc, file, keys, message)?;
    match (severity_of(message.rank), span) {
        (Some(severity), Some(span)) => Ok(Some(Diagnostic {
            from: text.position_of(counting, span.begin.min(len)),
            to: text.position_of(counting, span.end.min(len)),
            severity,
            words: words_of(alloc, message)?,
        })),
        _ => Ok(None),
    }
}

/// The diagnostics of messages in the text of a file, in the order of the messages.
pub fn diagnostics(
    alloc: Global,
    file: &FileText<'_>,
    keys: &Keys,
    messages: &[Message],
) -> Result<Sequence<Diagnostic>, AllocError>
    requires { 2 * length file.now.text.now < 2 ^ 64 }
    ensures { IfOk result (λ shown. shown ≡ diagnostics file.now.name.now file.now.counting file.now.text.now
        keys.now.role (known keys.now.spans) messages.now) }
{
    let mut shown = Sequence::new(alloc);
    'messages: for message in messages {
        let diagnostic = diagnostic_of(alloc, file, keys, message)?;
        shown.push_if_any(diagnostic)?;
    }
    Ok(shown)
}
