//! The entries that the style sees.

ghost use Rattle.std.specs.Prelude.{◌≡◌, ◌++◌, ◌∷◌, [], Some, filter_map, not, option_map, true, slice_get, IfOk, IfSome, IsTrue, OnOk};
ghost use Rattle.bt_resolve.specs.Inherited.{entry_seen, final_crossref, is_left_out};
ghost use Rattle.bt_resolve.specs.declared.stored.Stored.{Stored as StoredSeen};
ghost use Rattle.bt_resolve.specs.inner.Cases.{entry_at, with_crossref};
ghost use Rattle.bt_resolve.specs.Names.{crossref, place_of_name};
ghost use Rattle.bt_resolve.specs.Listed.{is_cited_at, listed};
ghost use Rattle.bt_resolve.specs.inner.Heirs.{AreMadeAgain, MakesAgain, is_marked, made_at};
ghost use Rattle.bt_resolve.specs.inner.Inheritance.{seen_of, shown_among};

use crate::asked::Asked;
use crate::current_values::CurrentValues;
use crate::entry::Entry;
use crate::family::Family;
use crate::fields::CROSSREF;
use crate::heirs::{Heirs, is_marked};
use crate::inheritance::{all_inherit, shared, values_read};
use crate::list::is_cited_at;
use crate::references::spelled;
use crate::seen_edit::MadeEntry;
use crate::seen_values::put_crossref;
use crate::stored::{FieldValues, Stored};
use bt_text::{Bytes, Excerpt, Sequence, Shared, equal_bytes};
use std::alloc::{AllocError, Global};

/// The entries that the style sees, and their places among the stored ones.
#[derive(Drop)]
pub struct Seen {
    /// The places of the whole list, with the entries that are left out.
    pub listed: Sequence<usize>,
    pub places: Sequence<usize>,
    pub entries: Sequence<Entry>,
}

/// The stored entries, for a style with these citations.
#[derive(Clone, Copy, Drop)]
pub struct View<'a> {
    pub alloc: Global,
    pub asked: &'a Asked<'a>,
    /// The least number of references.
    pub min: u32,
    pub family: &'a Family,
}

impl View<'_> {
    /// Whether the entry at a place is left out of the list, because it isn't cited and too few entries refer to it.
    #[tactic(auto, unfolding(crate::specs::Inherited::is_left_out))]
    fn is_left_out(&self, place: usize) -> Result<bool, AllocError>
        ensures { IfOk result (λ left_out. left_out
            ≡ is_left_out self.now.asked.now self.now.min self.now.family.now place) }
    {
        Ok(
            self.asked.star.is_none()
                && !is_cited_at(self.alloc, &self.asked.keys, self.family, place)?
                && self.family.children(place) < self.min as usize,
        )
    }

    /// Whether the entry at a place has this key, byte for byte.
    pub fn is_of_key(&self, place: usize, key: &[u8]) -> bool
        ensures { IsTrue result → option_map (λ (s : StoredSeen). s.key) (slice_get self.now.family.now place) ≡ Some key.now }
    {
        match self.family.entries().get(place) {
            None => false,
            Some(entry) => equal_bytes(entry.key.as_slice(), key),
        }
    }

    /// Whether the entry at a place has the cited key at an index, byte for byte.
    fn is_cited_as(&self, place: usize, index: usize) -> bool
        ensures { IsTrue result → is_cited_at self.now.asked.now.keys self.now.family.now place ≡ true }
    {
        let keys = self.asked.keys.as_slice();
        if index >= keys.len() {
            return false;
        }
        self.is_of_key(place, keys[index].as_slice())
    }

    /// Whether the list shows the entry at a place. Usually it has the key that is cited at its index in the list, so no
    /// key is hashed.
    fn is_shown(&self, place: usize, index: usize) -> Result<bool, AllocError>
        ensures { IfOk result (λ shown. shown
            ≡ not (is_left_out self.now.asked.now self.now.min self.now.family.now place)) }
    {
        if self.is_cited_as(place, index) {
            return Ok(true);
        }
        Ok(!self.is_left_out(place)?)
    }

    /// The final field `crossref` of an entry: missing if no entry has that key, or if that entry is left out.
    #[tactic(auto, unfolding(crate::specs::Inherited::final_crossref))]
    fn final_crossref(&self, entry: &Stored) -> Result<Option<Excerpt>, AllocError>
        ensures { IfOk result (λ name. name
            ≡ final_crossref self.now.asked.now self.now.min self.now.family.now entry.now) }
    {
        match self.family.parent_of(self.alloc, entry)? {
            None => Ok(None),
            Some(parent) => {
                if self.is_left_out(parent)? {
                    Ok(None)
                } else {
                    shared(&entry.crossref)
                }
            }
        }
    }

    /// The values of a stored entry as the style sees them, with `crossref` in its place, if the style has that field.
    fn fields_seen(
        &self,
        values: Shared<FieldValues>,
        entry: &Stored,
    ) -> Result<Shared<FieldValues>, AllocError>
        ensures { IfOk result (λ fields. fields ≡ with_crossref (place_of_name self.now.asked.now.fields crossref)
            (final_crossref self.now.asked.now self.now.min self.now.family.now entry.now) values) }
    {
        match self.asked.fields.place(self.alloc, CROSSREF)? {
            None => Ok(values),
            Some(place) => {
                let crossref = self.final_crossref(entry)?;
                put_crossref(self.alloc, place, crossref, values)
            }
        }
    }

    fn entry_seen(&self, values: Shared<FieldValues>, entry: &Stored) -> Result<Entry, AllocError>
        ensures { IfOk result (λ seen. seen
            ≡ entry_seen self.now.asked.now self.now.min self.now.family.now values entry.now) }
    {
        let fields = self.fields_seen(values, entry)?;
        Ok(Entry {
            key: spelled(self.alloc, &self.asked.keys, &entry.key)?,
            kind: entry.kind.share()?,
            function: entry.function,
            fields,
        })
    }

    fn entry_at(
        &self,
        values: Shared<FieldValues>,
        place: usize,
    ) -> Result<Option<Entry>, AllocError>
        ensures { IfOk result (λ seen. seen
            ≡ entry_at self.now.asked.now self.now.min self.now.family.now (λ q. values) place) }
    {
        match self.family.entries().get(place) {
            None => Ok(None),
            Some(entry) => {
                let seen = self.entry_seen(values, entry)?;
                Ok(Some(seen))
            }
        }
    }

    fn add_shown(
        &self,
        place: usize,
        index: usize,
        shown: &mut Sequence<usize>,
    ) -> Result<(), AllocError>
        ensures { OnOk result (shown.new ≡ shown.old ++ shown_among self.now (place ∷ [])) }
    {
        if !self.is_shown(place, index)? {
            return Ok(());
        }
        shown.push(place)?;
        Ok(())
    }

    fn shown_among(&self, places: &[usize]) -> Result<Sequence<usize>, AllocError>
        ensures { IfOk result (λ shown. shown ≡ shown_among self.now places.now) }
    {
        let mut shown = Sequence::new(self.alloc);
        'places: for k in 0..places.len() {
            self.add_shown(places[k], k, &mut shown)?;
        }
        Ok(shown)
    }

    /// The entry at a place, with its current values.
    fn current_entry(
        &self,
        values: &CurrentValues<'_>,
        place: usize,
    ) -> Result<Option<Entry>, AllocError>
        ensures { IfOk result (λ seen. seen
            ≡ made_at self.now.asked.now self.now.min self.now.family.now values.now place) }
    {
        let values = values.at(place)?;
        self.entry_at(values, place)
    }

    /// If the entry at an index of the list is an heir, makes it again. Returns false if nothing is stored at its place.
    fn make_again(
        &self,
        heirs: &Heirs<'_>,
        place: usize,
        index: usize,
        made: &mut Sequence<MadeEntry>,
    ) -> Result<bool, AllocError>
        ensures { IfOk result (λ is. IsTrue is → MakesAgain (is_marked heirs.now.marks place)
            (made_at self.now.asked.now self.now.min self.now.family.now heirs.now.values place)
            index made.old made.new) }
    {
        if !is_marked(heirs.marks.as_slice(), place) {
            return Ok(true);
        }
        let Some(entry) = self.current_entry(&heirs.values, place)? else {
            return Ok(false);
        };
        made.push(MadeEntry { index, entry })?;
        Ok(true)
    }

    /// The heirs of a list with these places, made again. None if nothing is stored at the place of one.
    pub fn made_again(
        &self,
        heirs: &Heirs<'_>,
        places: &[usize],
    ) -> Result<Option<Sequence<MadeEntry>>, AllocError>
        ensures { IfOk result (λ found. IfSome found (AreMadeAgain
            (made_at self.now.asked.now self.now.min self.now.family.now heirs.now.values)
            (is_marked heirs.now.marks) places.now)) }
    {
        let mut made = Sequence::new(self.alloc);
        'places: for k in 0..places.len() {
            if !self.make_again(heirs, places[k], k, &mut made)? {
                return Ok(None);
            }
        }
        Ok(Some(made))
    }

    /// The entries at these places, with their current values.
    fn current_entries(
        &self,
        values: &CurrentValues<'_>,
        places: &[usize],
    ) -> Result<Sequence<Entry>, AllocError>
        ensures { IfOk result (λ entries. entries
            ≡ filter_map (made_at self.now.asked.now self.now.min self.now.family.now values.now) places.now) }
    {
        let mut entries = Sequence::new(self.alloc);
        'places: for place in places {
            entries.push_if_any(self.current_entry(values, *place)?)?;
        }
        Ok(entries)
    }

    /// The entries that the style sees, of the list of entries at these places.
    pub fn seen_of_list(&self, places: Vec<usize>) -> Result<Seen, AllocError>
        requires { places.items ≡ listed self.now.asked.now self.now.family.now }
        ensures { IfOk result (λ seen. seen ≡ seen_of self.now.asked.now self.now.min self.now.family.now) }
    {
        let read = values_read(self.alloc, self.family.entries())?;
        let mut values = CurrentValues::new(self.alloc, read.as_slice())?;
        let list = places.as_slice();
        all_inherit(self.alloc, self.family, list, &mut values)?;
        let shown = self.shown_among(list)?;
        let entries = self.current_entries(&values, shown.as_slice())?;
        Ok(Seen {
            listed: Sequence::from_vec(places),
            places: shown,
            entries,
        })
    }
}
