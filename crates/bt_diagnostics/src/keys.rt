//! The messages that are shown where a document has the key that they are about.
//!
//! A warning of the style, such as `empty title in knuth`, has the line of the style's command as its place, and a bad
//! cross-reference has none. An author wants to see both in the database.

ghost use Rattle.std.specs.Prelude.{◌≡◌, is_some, IfOk};
ghost use Rattle.bt_text.specs.ByName.{known};
ghost use Rattle.bt_diagnostics.specs.Keys.{is_line, is_at_key, key_span};

use crate::spans::Span;
use bt_log::{Message, Place};
use bt_text::ByName;
use std::alloc::{AllocError, Global};

/// What the keys of a document are there.
#[derive(Clone, Copy, Debug, PartialEq, Eq)]
pub enum KeyRole {
    /// Entries begin with them.
    Entry,
    /// They are cited.
    Citation,
}

/// The keys of a document at which messages can be shown, and whether they are entries or citations.
#[derive(Drop)]
pub struct Keys {
    pub role: KeyRole,
    pub spans: ByName<Span>,
}

/// Whether a place is a line of a text that isn't a style, or a whole file.
fn is_line(place: &Option<Place>) -> bool
    ensures { result ≡ is_line place.now }
{
    match place {
        Some(Place::Line { .. } | Place::DatabaseLine { .. } | Place::WholeFile { .. }) => true,
        Some(Place::Step { .. }) | None => false,
    }
}

/// Whether a message is shown at keys of this role: at an entry what the run says of it without a line of a file, at a
/// citation that its key has no entry.
pub fn is_at_key(role: KeyRole, message: &Message) -> bool
    ensures { result ≡ is_at_key role message.now }
{
    message.entry.is_some()
        && match role {
            KeyRole::Entry => !is_line(&message.place),
            KeyRole::Citation => message.place.is_none() && message.second.is_none(),
        }
}

/// Where a document has the key that a message is about, if the message is shown there.
pub fn key_span(alloc: Global, keys: &Keys, message: &Message) -> Result<Option<Span>, AllocError>
    ensures { IfOk result (λ span. span ≡ key_span keys.now.role (known keys.now.spans) message.now) }
{
    let Some(key) = &message.entry else {
        return Ok(None);
    };
    if !is_at_key(keys.role, message) {
        return Ok(None);
    }
    let span = keys.spans.get(alloc, key.as_slice())?;
    Ok(span.copied())
}
