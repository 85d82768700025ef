//! Which entry an edit changes for READ, if it is only one.

ghost use Rattle.std.specs.Prelude.{◌≡◌, ◌≢◌, ◌<◌, false, IfSome, IsTrue, Some, length, option_map, slice_get, slice_set};
ghost use Rattle.std.specs.Option.{ForSome};
ghost use Rattle.bt_resolve.specs.inner.Heirs.{with_made};
ghost use Rattle.bt_run.specs.inner.ChangedEntry.{IsChangedEntry};

use crate::kept_resolution::KeptResolution;
use crate::reused_step::is_same_number;
use crate::same_messages::are_same_messages;
use bt_resolve::{Entry, MadeEntry, SeenEdit};
use bt_text::equal_bytes;

/// The changed entry, and its place in the list.
#[derive(Clone, Copy)]
pub struct ChangedEntry<'a> {
    pub place: usize,
    pub entry: &'a Entry,
}

fn is_same_entry(entry: &Entry, other: &Entry) -> bool
    ensures { IsTrue result → entry.now ≡ other.now }
{
    equal_bytes(entry.key.as_slice(), other.key.as_slice())
        && is_same_number(entry.function, other.function)
        && equal_bytes(entry.kind.as_slice(), other.kind.as_slice())
        && entry.fields.is_same(&other.fields)
}

/// Whether an entry that was made again is the one at its index.
fn is_same_made(entries: &[Entry], made: &MadeEntry) -> bool
    ensures { IsTrue result → slice_get entries.now made.now.index ≡ Some made.now.entry }
{
    match entries.get(made.index) {
        None => false,
        Some(entry) => is_same_entry(entry, &made.entry),
    }
}

/// Whether an entry that was made again is for the same index as another one, if there is another.
fn is_for_same(made: &MadeEntry, other: Option<&MadeEntry>) -> bool
    ensures { result ≡ false → ForSome (option_map (λ o. o.now) other.entry) (λ o. made.now.index ≢ o.index) }
{
    match other {
        None => false,
        Some(other) => made.index == other.index,
    }
}

/// The one of these that differs from the entry at its index, if no other one does.
fn only_changed<'a>(entries: &[Entry], made: &'a [MadeEntry]) -> Option<ChangedEntry<'a>>
    ensures within { IfSome result (λ o. o.place < length entries.now) }
    ensures entries { IfSome result (λ o. with_made made.entry.now entries.now ≡ slice_set entries.now o.place o.entry.now) }
{
    let mut other = None;
    'made: for number in 0..made.len() {
        let one = &made[number];
        if is_for_same(one, other) {
            return None;
        }
        if !is_same_made(entries, one) {
            if other.is_some() {
                return None;
            }
            other = Some(one);
        }
    }
    let other = other?;
    if other.index >= entries.len() {
        return None;
    }
    Some(ChangedEntry {
        place: other.index,
        entry: &other.entry,
    })
}

impl KeptResolution {
    /// The entry that the kept edit changes, if no other entry and no message changes.
    pub fn changed_entry(&self) -> Option<ChangedEntry<'_>>
        ensures { IfSome result (λ other. IsChangedEntry self.entry.now other.place other.entry.now) }
    {
        let edit = self.edit.as_ref()?;
        let made = edit.made.as_ref()?;
        let found = self.resolution.resolved();
        if !are_same_messages(made.messages.as_slice(), found.messages.as_slice()) {
            return None;
        }
        match &made.seen {
            SeenEdit::Same => None,
            SeenEdit::Others(others) => {
                let other = only_changed(found.entries.as_slice(), others.made.as_slice())?;
                Some(other)
            }
        }
    }
}
