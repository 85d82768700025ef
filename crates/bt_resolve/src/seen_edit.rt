//! How an edit changes the entries that a style sees.

ghost use Rattle.std.specs.Prelude.{◌≡◌, length, IfOk, IfSome};
ghost use Rattle.bt_resolve.specs.inner.Kept.{AreOthers, IsSeenEdit, IsWithin, with_own, with_seen};
ghost use Rattle.bt_resolve.specs.inner.Heirs.{with_made};

use crate::entry::Entry;
use crate::heirs::{NewValues, heirs_of, stays_among};
use crate::kept::EditView;
use crate::stored::{FieldValues, Stored};
use crate::view::View;
use bt_text::{Sequence, Shared};
use std::alloc::AllocError;

/// An entry of the list that is made again.
#[derive(Drop)]
pub struct MadeEntry {
    /// Its index in the list.
    pub index: usize,
    pub entry: Entry,
}

/// What becomes of the entries that are seen after an edit of one.
#[derive(Drop)]
pub struct OtherEntries {
    /// The new values.
    pub own: NewValues,
    /// The entries that are made again. They may be the same as before.
    pub made: Sequence<MadeEntry>,
    /// Which entries of the list are known to be the same as before.
    pub stays: Shared<Sequence<bool>>,
}

/// How an edit changes the entries that are seen.
#[derive(Drop)]
pub enum SeenEdit {
    /// It changes none.
    Same,
    /// It may change some.
    Others(OtherEntries),
}

impl EditView<'_, '_> {
    /// What is seen with new values of a stored entry. None if that isn't known without resolving everything anew.
    fn other_entries(&self, own: NewValues) -> Result<Option<OtherEntries>, AllocError>
        ensures { IfOk result (λ found. IfSome found
            (AreOthers self.now.asked.now self.now.min self.now.found.now own)) }
    {
        let places = self.found.places.as_slice();
        if places.len() != self.found.all.entries.len() {
            return Ok(None);
        }
        let family = &self.found.store;
        let list = self.found.listed.as_slice();
        let heirs = heirs_of(self.alloc, family, list, self.found.values.as_slice(), &own)?;
        let view = View {
            alloc: self.alloc,
            asked: self.asked,
            min: self.min,
            family,
        };
        let Some(made) = view.made_again(&heirs, places)? else {
            return Ok(None);
        };
        let stays = stays_among(self.alloc, heirs.marks.as_slice(), places)?;
        Ok(Some(OtherEntries { own, made, stays }))
    }

    /// What becomes of the entries that are seen, if at most one stored entry replaces another of its skeleton: nothing, if
    /// it has the same values. None if more than one are stored, or the list's places and entries differ in number.
    pub fn seen_edit(&self, stored: &[Stored]) -> Result<Option<SeenEdit>, AllocError>
        ensures { IfOk result (λ edit. IfSome edit (λ e. IsSeenEdit self.now.asked.now self.now.min
            self.now.around.first.stored self.now.found.now stored.now e)) }
    {
        if stored.len() == 0 {
            return Ok(Some(SeenEdit::Same));
        }
        if stored.len() > 1 {
            return Ok(None);
        }
        let place = self.around.first.stored;
        let own = self.found.values.as_slice();
        if place < own.len() && own[place].is_same(&stored[0].values) {
            return Ok(Some(SeenEdit::Same));
        }
        let values = stored[0].values.share()?;
        let Some(others) = self.other_entries(NewValues { place, values })? else {
            return Ok(None);
        };
        Ok(Some(SeenEdit::Others(others)))
    }
}

/// Puts entries that were made again in the place of the old ones.
#[tactic(auto, using(crate::proofs::MadeAgainLemmas::put_more, crate::proofs::MadeAgainLemmas::put_beyond))]
fn put_made(entries: &mut Sequence<Entry>, made: Sequence<MadeEntry>)
    ensures { entries.new ≡ with_made made entries.old }
{
    'made: for one in made.into_vec() {
        let MadeEntry { index, entry } = one;
        if index < entries.len() {
            entries.set(index, entry);
        }
    }
}

/// Puts the entries that are seen after an edit, and the new values.
pub fn put_seen(
    entries: &mut Sequence<Entry>,
    values: &mut Sequence<Shared<FieldValues>>,
    edit: SeenEdit,
)
    requires { IsWithin edit (length values.old) }
    ensures entries { entries.new ≡ with_seen edit entries.old }
    ensures values { values.new ≡ with_own edit values.old }
{
    match edit {
        SeenEdit::Same => {}
        SeenEdit::Others(others) => {
            let OtherEntries { own, made, .. } = others;
            put_made(entries, made);
            values.set(own.place, own.values);
        }
    }
}
