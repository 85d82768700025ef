//! The messages of the list: about cross references, and about cited keys without an entry.

ghost use Rattle.std.specs.Prelude.{◌≡◌, ◌++◌, option_and_then, option_copied, slice_get, true, IfOk, IsTrue, OnOk};
ghost use Rattle.std.specs.List.{flat_map};
ghost use Rattle.bt_resolve.specs.Inherited.{key_spelled};
ghost use Rattle.bt_resolve.specs.Listed.{listed, place_of_key};
ghost use Rattle.bt_resolve.specs.References.{about, bad_reference, list_messages, missing_messages, nested, no_entry, reference_messages};
ghost use Rattle.bt_resolve.specs.Stored.{is_stored};
ghost use Rattle.bt_resolve.specs.inner.Cases.{entry_messages, parent_messages};

use crate::messages::add_message;
use crate::stored::Stored;
use crate::view::View;
use bt_log::{Message, Rank, Said};
use bt_text::{Bytes, NameList, Sequence, Shared, equal_bytes};
use std::alloc::{AllocError, Global};

fn about(
    alloc: Global,
    rank: Rank,
    key: &[u8],
    words: Shared<Bytes>,
    second: Option<Shared<Bytes>>,
) -> Result<Message, AllocError>
    ensures { IfOk result (λ message. message ≡ about rank key.now words second) }
{
    Ok(Message {
        rank,
        said: Said::Words(words),
        entry: Some(Shared::<Bytes>::copied(alloc, key)?),
        place: None,
        second,
    })
}

fn bad_reference(alloc: Global, key: &[u8], parent: &[u8]) -> Result<Message, AllocError>
    ensures { IfOk result (λ message. message ≡ bad_reference key.now parent.now) }
{
    let words = Shared::<Bytes>::of(alloc, &[b"A bad cross reference---entry \"", key, b"\""])?;
    let second = Shared::<Bytes>::of(
        alloc,
        &[b"refers to entry \"", parent, b"\", which doesn't exist"],
    )?;
    about(alloc, Rank::Error, key, words, Some(second))
}

/// The message about an entry that refers to one that itself refers to another.
fn nested(alloc: Global, key: &[u8], parent: &[u8]) -> Result<Message, AllocError>
    ensures { IfOk result (λ message. message ≡ nested key.now parent.now) }
{
    let words = Shared::<Bytes>::of(
        alloc,
        &[
            b"Warning--you've nested cross references--entry \"",
            key,
            b"\"",
        ],
    )?;
    let second = Shared::<Bytes>::of(
        alloc,
        &[
            b"refers to entry \"",
            parent,
            b"\", which also refers to something",
        ],
    )?;
    about(alloc, Rank::Warning, key, words, Some(second))
}

fn no_entry(alloc: Global, key: &[u8]) -> Result<Message, AllocError>
    ensures { IfOk result (λ message. message ≡ no_entry key.now) }
{
    let words = Shared::<Bytes>::of(
        alloc,
        &[
            b"Warning--I didn't find a database entry for \"",
            key,
            b"\"",
        ],
    )?;
    about(alloc, Rank::Warning, key, words, None)
}

/// A key as it is spelled where it is cited. If the entry spells it the same, the entry's text is shared.
fn spelled_as(alloc: Global, cited: &[u8], key: &Shared<Bytes>) -> Result<Shared<Bytes>, AllocError>
    ensures { IfOk result (λ text. text ≡ cited.now) }
{
    if equal_bytes(key.as_slice(), cited) {
        return key.share();
    }
    Shared::<Bytes>::copied(alloc, cited)
}

/// A key, spelled as it is cited, or as in the database if it isn't cited.
pub fn spelled(
    alloc: Global,
    keys: &NameList,
    key: &Shared<Bytes>,
) -> Result<Shared<Bytes>, AllocError>
    ensures { IfOk result (λ text. text ≡ key_spelled keys.now key.now) }
{
    match keys.find(alloc, key.as_slice())? {
        None => key.share(),
        Some(cited) => spelled_as(alloc, cited.as_slice(), key),
    }
}

impl<'a> View<'a> {
    fn entry_of_key(&self, key: &[u8]) -> Result<Option<&'a Stored>, AllocError>
        ensures { IfOk result (λ entry. option_copied entry ≡ option_and_then
            (slice_get self.now.family.now) (place_of_key self.now.family.now key.now)) }
    {
        match self.family.place(self.alloc, key)? {
            None => Ok(None),
            Some(place) => Ok(self.family.entries().get(place)),
        }
    }

    fn tell_parent(
        &self,
        key: &[u8],
        name: &[u8],
        messages: &mut Sequence<Message>,
    ) -> Result<(), AllocError>
        ensures { OnOk result (messages.new ≡ messages.old ++ parent_messages key.now name.now
            (option_and_then (slice_get self.now.family.now) (place_of_key self.now.family.now name.now))) }
    {
        match self.entry_of_key(name)? {
            None => add_message(messages, bad_reference(self.alloc, key, name)?),
            Some(parent) => {
                if parent.crossref.is_some() {
                    add_message(messages, nested(self.alloc, key, name)?)
                } else {
                    Ok(())
                }
            }
        }
    }

    fn tell_entry(
        &self,
        entry: Option<&Stored>,
        messages: &mut Sequence<Message>,
    ) -> Result<(), AllocError>
        ensures { OnOk result (messages.new ≡ messages.old
            ++ entry_messages self.now.asked.now.keys self.now.family.now (option_copied entry.entry)) }
    {
        let Some(entry) = entry else {
            return Ok(());
        };
        let Some(name) = &entry.crossref else {
            return Ok(());
        };
        let key = spelled(self.alloc, &self.asked.keys, &entry.key)?;
        self.tell_parent(key.as_slice(), name.as_slice(), messages)
    }

    #[tactic(auto, unfolding(crate::specs::References::reference_messages))]
    fn reference(&self, place: usize, messages: &mut Sequence<Message>) -> Result<(), AllocError>
        ensures { OnOk result (messages.new ≡ messages.old
            ++ reference_messages self.now.asked.now.keys self.now.family.now place) }
    {
        self.tell_entry(self.family.entries().get(place), messages)
    }

    fn references(
        &self,
        places: &[usize],
        messages: &mut Sequence<Message>,
    ) -> Result<(), AllocError>
        ensures { OnOk result (messages.new ≡ messages.old
            ++ flat_map (reference_messages self.now.asked.now.keys self.now.family.now) places.now) }
    {
        'places: for place in places {
            self.reference(*place, messages)?;
        }
        Ok(())
    }

    /// Whether the entry at an index of the list has this key, byte for byte.
    fn is_listed_as(&self, key: &[u8], places: &[usize], index: usize) -> bool
        ensures { IsTrue result → is_stored self.now.family.now key.now ≡ true }
    {
        if index >= places.len() {
            return false;
        }
        self.is_of_key(places[index], key)
    }

    /// Whether a key has an entry. Usually the list has it at the key's index, so the key isn't hashed.
    fn has_entry(&self, key: &[u8], places: &[usize], index: usize) -> Result<bool, AllocError>
        ensures { IfOk result (λ stored. stored ≡ is_stored self.now.family.now key.now) }
    {
        if self.is_listed_as(key, places, index) {
            return Ok(true);
        }
        self.family.has(self.alloc, key)
    }

    #[tactic(auto, unfolding(crate::specs::References::missing_messages))]
    fn missing(
        &self,
        key: &[u8],
        places: &[usize],
        index: usize,
        messages: &mut Sequence<Message>,
    ) -> Result<(), AllocError>
        ensures { OnOk result (messages.new ≡ messages.old
            ++ missing_messages self.now.family.now key.now) }
    {
        if self.has_entry(key, places, index)? {
            Ok(())
        } else {
            add_message(messages, no_entry(self.alloc, key)?)
        }
    }

    fn all_missing(
        &self,
        keys: &[Bytes],
        places: &[usize],
        messages: &mut Sequence<Message>,
    ) -> Result<(), AllocError>
        ensures { OnOk result (messages.new ≡ messages.old
            ++ flat_map (missing_messages self.now.family.now) keys.now) }
    {
        'keys: for k in 0..keys.len() {
            self.missing(keys[k].as_slice(), places, k, messages)?;
        }
        Ok(())
    }

    /// Adds the messages of the list of entries at these places. If memory runs out, some of them may have been added.
    #[tactic(auto, unfolding(crate::specs::References::list_messages))]
    pub fn tell_list(
        &self,
        places: &[usize],
        messages: &mut Sequence<Message>,
    ) -> Result<(), AllocError>
        requires { places.now ≡ listed self.now.asked.now self.now.family.now }
        ensures { OnOk result (messages.new ≡ messages.old
            ++ list_messages self.now.asked.now self.now.family.now) }
    {
        self.references(places, messages)?;
        self.all_missing(self.asked.keys.as_slice(), places, messages)
    }
}
