//! Reading entries: which are stored, and as what.

ghost use Rattle.std.specs.Prelude.{◌≡◌, ◌++◌, Some, IfOk, IfSome, IsTrue, OnOk};
ghost use Rattle.bt_text.specs.ByName.{known};
ghost use Rattle.bt_text.specs.CaseFolding.{folded};
ghost use Rattle.bt_resolve.specs.inner.Slots.{given_by};
ghost use Rattle.bt_resolve.specs.Messages.{stored_messages};
ghost use Rattle.bt_resolve.specs.inner.Cases.{type_messages, with_entry};
ghost use Rattle.bt_text.specs.NameList.{are_apart};
ghost use Rattle.bt_resolve.specs.Stored.{is_wanted, kind_of, stored_of};
ghost use Rattle.bt_resolve.specs.Warnings.{line_at};
ghost use Rattle.bt_resolve.specs.inner.KnownEntries.{KnowsEntry};
ghost use Rattle.bt_resolve.specs.inner.Readers.{messages_of_entry, messages_of_given, messages_of_stored};

use crate::faults::repeated;
use crate::fields::{FieldReader, Given};
use crate::macro_text::MacroText;
use crate::messages::add_message;
use crate::reader::Reader;
use crate::store::Store;
use crate::stored::Stored;
use crate::warnings::no_function;
use bt_bib::Entry;
use bt_log::Message;
use bt_text::{ByName, Bytes, Sequence, Shared, is_ascii_lowercase, to_ascii_lowercase};
use std::alloc::{AllocError, Global};

/// The type of an entry, as written.
pub fn kind_of(entry: &Entry) -> &[u8]
    ensures { result.now ≡ kind_of entry.now }
{
    match &entry.kind {
        None => &[],
        Some(kind) => kind.as_slice(),
    }
}

/// The type of an entry in small letters; shared if it has no capitals.
fn small_kind(alloc: Global, entry: &Entry) -> Result<Shared<Bytes>, AllocError>
    ensures { IfOk result (λ kind. kind ≡ folded (kind_of entry.now)) }
{
    match &entry.kind {
        Some(kind) if is_ascii_lowercase(kind.as_slice()) => kind.share(),
        _ => Shared::new(alloc, to_ascii_lowercase(alloc, kind_of(entry))?),
    }
}

fn with_given(
    alloc: Global,
    key: &Shared<Bytes>,
    entry: &Entry,
    function: Option<usize>,
    given: Given,
) -> Result<Stored, AllocError>
    ensures { IfOk result (λ stored. stored ≡ record {
      key = key.now;
      kind = folded (kind_of entry.now);
      function = function;
      crossref = given.crossref;
      values = given.values;
    }) }
{
    let values = given.values.into_shared(alloc)?;
    Ok(Stored {
        key: key.share()?,
        kind: small_kind(alloc, entry)?,
        function,
        crossref: given.crossref,
        values,
    })
}

impl Reader<'_, '_> {
    fn is_wanted(&self, store: &Store, key: &[u8]) -> Result<bool, AllocError>
        ensures { IfOk result (λ wanted. wanted ≡ is_wanted self.now.asked.now store.now key.now) }
    {
        Ok(
            self.asked.star.is_some()
                || self.asked.keys.has(self.alloc, key)?
                || store.refers_to(self.alloc, key)?,
        )
    }

    /// Reports that a type has no function.
    fn tell_type(
        &self,
        function: Option<usize>,
        key: &[u8],
        messages: &mut Sequence<Message>,
    ) -> Result<(), AllocError>
        ensures { OnOk result (messages.new ≡ messages.old
            ++ type_messages function (line_at self.now.origin self.now.item.now.line) key.now) }
    {
        let place = self.origin.place(self.item.line);
        match function {
            None => add_message(messages, no_function(self.alloc, place, key)?),
            Some(_) => Ok(()),
        }
    }

    fn given(
        &self,
        entry: &Entry,
        key: &[u8],
        macros: &ByName<MacroText>,
        messages: &mut Sequence<Message>,
    ) -> Result<Given, AllocError>
        requires { IsTrue (are_apart self.now.asked.now.fields) }
        ensures given { IfOk result (λ given. given ≡ given_by self.now.asked.now.fields (known macros.now)
            entry.now.fields) }
        ensures messages { OnOk result (messages.new ≡ messages.old
            ++ messages_of_given self.now (known macros.now) key.now entry.now.fields) }
    {
        let reader = FieldReader {
            alloc: self.alloc,
            declared: &self.asked.fields,
            macros,
            origin: self.origin,
            key,
        };
        reader.fields(entry.fields.as_slice(), messages)
    }

    /// What is stored of an entry of this key.
    #[tactic(auto, unfolding(crate::specs::Stored::stored_of, crate::specs::Messages::stored_messages))]
    pub fn stored(
        &self,
        entry: &Entry,
        key: &Shared<Bytes>,
        macros: &ByName<MacroText>,
        messages: &mut Sequence<Message>,
    ) -> Result<Stored, AllocError>
        requires { IsTrue (are_apart self.now.asked.now.fields) }
        ensures key { IfOk result (λ stored. stored.key ≡ key.now) }
        ensures stored { IfOk result (λ stored. stored ≡ stored_of self.now.asked.now (known macros.now)
            entry.now key.now) }
        ensures messages { OnOk result (messages.new ≡ messages.old
            ++ messages_of_stored self.now (known macros.now) entry.now key.now) }
    {
        let kind = kind_of(entry);
        let function = self.asked.types.place(self.alloc, kind)?;
        self.tell_type(function, key.as_slice(), messages)?;
        let given = self.given(entry, key.as_slice(), macros, messages)?;
        with_given(self.alloc, key, entry, function, given)
    }

    /// The same, from an earlier resolution if it is known there.
    fn known_or_stored(
        &self,
        entry: &Entry,
        key: &Shared<Bytes>,
        macros: &ByName<MacroText>,
        messages: &mut Sequence<Message>,
    ) -> Result<Stored, AllocError>
        requires fields { IsTrue (are_apart self.now.asked.now.fields) }
        requires key { entry.now.key ≡ Some key.now }
        requires known { IfSome self.now.known (KnowsEntry self.now.asked.now self.now.origin.database
            self.now.item.now.line entry.now) }
        ensures key { IfOk result (λ stored. stored.key ≡ key.now) }
        ensures stored { IfOk result (λ stored. stored ≡ stored_of self.now.asked.now (known macros.now)
            entry.now key.now) }
        ensures messages { OnOk result (messages.new ≡ messages.old
            ++ messages_of_stored self.now (known macros.now) entry.now key.now) }
    {
        let Some(earlier) = &self.known else {
            return self.stored(entry, key, macros, messages);
        };
        let same = earlier.are_same_fields(self.alloc, entry.fields.as_slice(), macros)?;
        if !same {
            return self.stored(entry, key, macros, messages);
        }
        earlier.share()
    }

    /// Reads an entry: it is stored if it is the first wanted one of its key.
    pub fn entry(
        &self,
        entry: &Entry,
        macros: &ByName<MacroText>,
        store: &mut Store,
        messages: &mut Sequence<Message>,
    ) -> Result<(), AllocError>
        requires fields { IsTrue (are_apart self.now.asked.now.fields) }
        requires known { IfSome self.now.known (KnowsEntry self.now.asked.now self.now.origin.database
            self.now.item.now.line entry.now) }
        ensures store { OnOk result (store.new ≡ with_entry self.now.asked.now (known macros.now)
            entry.now entry.now.key store.old) }
        ensures messages { OnOk result (messages.new ≡ messages.old
            ++ messages_of_entry self.now (known macros.now) store.old entry.now) }
    {
        let Some(key) = &entry.key else {
            return Ok(());
        };
        if !self.is_wanted(store, key.as_slice())? {
            return Ok(());
        }
        if store.has(self.alloc, key.as_slice())? {
            let place = self.origin.place(self.item.line);
            return add_message(messages, repeated(self.alloc, place, key)?);
        }
        let stored = self.known_or_stored(entry, key, macros, messages)?;
        store.push(self.alloc, stored)
    }
}
