//! Gives a session's file a new text.

ghost use Rattle.std.specs.Prelude.{◌≡◌, false, Some, None, IsTrue};
ghost use Rattle.bt_job.specs.FileNames.{text_of};
ghost use Rattle.bt_documents.specs.Written.{is_taken, is_refused};
ghost use Rattle.bt_session.specs.Author.{is_full_for};
ghost use Rattle.bt_paper.specs.Paper.{GivesText, OthersStay};

use bt_documents::Written;
use bt_session::AuthorSession;
use bt_text::Bytes;
use std::alloc::AllocError;

fn has_text(session: &AuthorSession, name: &[u8], text: &[u8]) -> bool
    ensures { IsTrue result → text_of session.now.texts name.now ≡ Some text.now }
{
    match session.file(name) {
        Some(own) => own == text,
        None => false,
    }
}

/// Whether a session has no file of a name.
pub fn lacks(session: &AuthorSession, name: &[u8]) -> bool
    ensures { IsTrue result → text_of session.now.texts name.now ≡ None }
{
    match session.file(name) {
        Some(_) => false,
        None => true,
    }
}

/// Whether a text was taken. The error is out of memory.
pub fn taken(written: Written) -> Result<bool, AllocError> {
    if written.is_waiting() {
        return Err(AllocError);
    }
    Ok(written.is_taken())
}

/// Gives a session's file a text, and says what the session did with it.
fn set(session: &mut AuthorSession, name: &[u8], new: &[u8]) -> Written
    ensures kept { is_taken result ≡ false → session.new ≡ session.old }
    ensures gives { IsTrue (is_taken result) → GivesText name.now new.now session.old session.new }
    ensures refused { is_refused result ≡ false }
{
    match session.write(name, new) {
        Ok(()) => Written::Taken,
        Err(_) => Written::Waiting,
    }
}

/// Gives a session's file a text that it may have already, and says what the session did with it. It is refused only if there
/// is no room for one more file.
pub fn give(session: &mut AuthorSession, name: &[u8], new: &[u8]) -> Written
    ensures kept { is_taken result ≡ false → session.new ≡ session.old }
    ensures gives { IsTrue (is_taken result) → GivesText name.now new.now session.old session.new }
    ensures refused { IsTrue (is_refused result) → IsTrue (is_full_for session.old.texts name.now) }
{
    if has_text(session, name, new) {
        return Written::Taken;
    }
    if session.is_full_for(name) {
        return Written::Refused;
    }
    set(session, name, new)
}

/// Takes a session's file away, and says what the session did.
fn remove(session: &mut AuthorSession, name: &[u8]) -> Written
    ensures { OthersStay name.now session.old session.new }
{
    match session.remove(name) {
        Ok(()) => Written::Taken,
        Err(_) => Written::Waiting,
    }
}

/// Gives a session's file a text, or takes it away if there is none. Says what the session did.
pub fn replace(session: &mut AuthorSession, name: &[u8], text: Option<Bytes>) -> Written
    ensures { OthersStay name.now session.old session.new }
{
    match text {
        Some(text) => give(session, name, text.as_slice()),
        None => remove(session, name),
    }
}
