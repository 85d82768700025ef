//! The mentions of a file, and the one under the cursor.

ghost use Rattle.std.specs.Prelude.{◌≡◌, find, IfOk};
ghost use Rattle.bt_places.specs.Mentioning.{citations_of, mentions_of, is_key, touches, mention_at};

use crate::commented::without_open_comments;
use crate::entries::{is_database, is_style, is_tex};
use crate::parameters::Cursor;
use bt_mentions::{Mention, Role, citations, mentions};
use bt_text::Sequence;
use std::alloc::{AllocError, Global};

/// The citations of a file that is no database. What a comment of LaTeX leaves open cites nothing.
pub fn citations_of(
    alloc: Global,
    name: &[u8],
    text: &[u8],
) -> Result<Sequence<Mention>, AllocError>
    ensures { IfOk result (λ found. found ≡ citations_of name.now text.now) }
{
    if !is_tex(name) {
        return citations(alloc, false, text);
    }
    let text = without_open_comments(alloc, text)?;
    let found = citations(alloc, true, text.as_slice())?;
    Ok(found)
}

/// The mentions of a file, by its name: those of a database, or the citations of any other text. A style has none.
pub fn mentions_of(alloc: Global, name: &[u8], text: &[u8]) -> Result<Sequence<Mention>, AllocError>
    ensures { IfOk result (λ found. found ≡ mentions_of name.now text.now) }
{
    if is_database(name) {
        mentions(alloc, text)
    } else if is_style(name) {
        Ok(Sequence::new(alloc))
    } else {
        citations_of(alloc, name, text)
    }
}

/// Whether a key is mentioned, and not a macro.
pub fn is_key(role: Role) -> bool
    ensures { result ≡ is_key role }
{
    match role {
        Role::Key | Role::Crossref | Role::Number | Role::Citation => true,
        Role::Definition | Role::Macro => false,
    }
}

/// Whether a place lies in a mention, or at its end.
fn touches(mention: Mention, place: usize) -> bool
    ensures { result ≡ touches place mention }
{
    mention.from <= place && place <= mention.to
}

fn mention_around(found: &[Mention], place: usize) -> Option<Mention>
    ensures { result ≡ find (touches place) found.now }
{
    'found: for one in found {
        if touches(*one, place) {
            return Some(*one);
        }
    }
    None
}

/// The mention at a position of a document.
pub fn mention_at(alloc: Global, cursor: &Cursor<'_>) -> Result<Option<Mention>, AllocError>
    ensures { IfOk result (λ found. found ≡ mention_at cursor.now.document.now cursor.now.at) }
{
    let Cursor { document, at } = *cursor;
    let place = document.text.offset_of(document.counting, at);
    let found = mentions_of(alloc, document.name.as_slice(), document.text.as_slice())?;
    Ok(mention_around(found.as_slice(), place))
}
