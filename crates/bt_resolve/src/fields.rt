//! What the fields of an entry yield.
//!
//! The definitions look up a value for each declared name. The code makes each value once, when its entry is read: a
//! field's value goes into the slot of its name, unless the slot is already filled. So the messages come in the order
//! of the fields, including those about values that don't count.

ghost use Rattle.std.specs.Prelude.{◌≡◌, ◌++◌, true, IfOk, IsTrue, OnOk, slice_get};
ghost use Rattle.bt_text.specs.ByName.{known};
ghost use Rattle.bt_text.specs.NameList.{are_apart};
ghost use Rattle.bt_resolve.specs.inner.Slots.{extra_messages, fill, given_by, is_filled, is_filled_at, slot_of, with_field};
ghost use Rattle.bt_resolve.specs.Values.{field_value};
ghost use Rattle.bt_resolve.specs.inner.Readers.{messages_of_field, messages_of_fields, text_of_field, warnings_of_field};

use crate::index::Index;
use crate::macro_text::MacroText;
use crate::messages::add_message;
use crate::place::Origin;
use crate::stored::FieldValues;
use crate::values::{ValueReader, trimmed};
use crate::warnings::extra_field;
use bt_bib::Field;
use bt_log::Message;
use bt_text::{ByName, Excerpt, Sequence, SparseTexts, eq_ignore_ascii_case};
use std::alloc::{AllocError, Global};

/// The field that refers to another entry.
pub const CROSSREF: &[u8] = b"crossref";

/// What the fields of an entry yield.
#[derive(Drop)]
pub struct Given {
    /// The values in the order of the style's fields, without the value of `crossref`.
    pub values: FieldValues,
    pub crossref: Option<Excerpt>,
}

/// Where the value of a declared field goes.
#[derive(Clone, Copy, PartialEq, Eq)]
enum Slot {
    Crossref,
    /// Among the values, at the index of the field's name.
    Value(usize),
}

/// What the fields of an entry are read with.
#[derive(Clone, Copy, Drop)]
pub struct FieldReader<'a> {
    pub alloc: Global,
    /// The declared fields.
    pub declared: &'a Index<'a>,
    /// The macros before the entry.
    pub macros: &'a ByName<MacroText>,
    pub origin: Origin,
    pub key: &'a [u8],
}

/// Whether an index has a value already, or is out of range.
fn is_filled_at(values: &FieldValues, place: usize) -> bool
    ensures { result ≡ is_filled_at (slice_get values.now place) }
{
    if place < values.len() {
        values.get(place).is_some()
    } else {
        true
    }
}

fn is_filled(given: &Given, slot: Slot) -> bool
    ensures { result ≡ is_filled slot given.now }
{
    match slot {
        Slot::Crossref => given.crossref.is_some(),
        Slot::Value(place) => is_filled_at(&given.values, place),
    }
}

fn fill(given: &mut Given, slot: Slot, value: Excerpt) -> Result<(), AllocError>
    ensures { OnOk result (given.new ≡ fill slot value given.old) }
{
    match slot {
        Slot::Crossref => {
            given.crossref = Some(value);
            Ok(())
        }
        Slot::Value(place) => given.values.set(place, Some(value)),
    }
}

impl FieldReader<'_> {
    fn slot(&self, name: &[u8]) -> Result<Option<Slot>, AllocError>
        ensures { IfOk result (λ slot. slot ≡ slot_of self.now.declared.now name.now) }
    {
        if eq_ignore_ascii_case(name, CROSSREF) {
            return Ok(Some(Slot::Crossref));
        }
        match self.declared.place(self.alloc, name)? {
            None => Ok(None),
            Some(place) => Ok(Some(Slot::Value(place))),
        }
    }

    #[tactic(auto, unfolding(crate::specs::Values::field_value))]
    fn value(&self, field: &Field, messages: &mut Sequence<Message>) -> Result<Excerpt, AllocError>
        ensures value { IfOk result (λ text. text ≡ text_of_field self.now field.now) }
        ensures messages { OnOk result (messages.new ≡ messages.old ++ warnings_of_field self.now field.now) }
    {
        let reader = ValueReader {
            alloc: self.alloc,
            macros: self.macros,
            own: None,
            origin: self.origin,
        };
        let name = field.name.as_slice();
        let value = reader.value(name, field.line, field.value.as_slice(), messages)?;
        trimmed(self.alloc, value)
    }

    /// Reports that an earlier field has the name of a field.
    fn tell_extra(&self, field: &Field, messages: &mut Sequence<Message>) -> Result<(), AllocError>
        ensures { OnOk result (messages.new ≡ messages.old
            ++ extra_messages true self.now.origin self.now.key.now field.now) }
    {
        let place = self.origin.place(field.line);
        let message = extra_field(self.alloc, place, self.key, field.name.as_slice())?;
        add_message(messages, message)
    }

    fn field(
        &self,
        field: &Field,
        given: &mut Given,
        messages: &mut Sequence<Message>,
    ) -> Result<(), AllocError>
        ensures given { OnOk result (given.new ≡ with_field (slot_of self.now.declared.now field.now.name)
            (text_of_field self.now field.now) given.old) }
        ensures messages { OnOk result (messages.new ≡ messages.old
            ++ messages_of_field self.now (slot_of self.now.declared.now field.now.name) given.old field.now) }
    {
        let Some(slot) = self.slot(field.name.as_slice())? else {
            return Ok(());
        };
        let value = self.value(field, messages)?;
        if is_filled(given, slot) {
            self.tell_extra(field, messages)
        } else {
            fill(given, slot, value)
        }
    }

    /// Reads the fields of the entry.
    pub fn fields(
        &self,
        fields: &[Field],
        messages: &mut Sequence<Message>,
    ) -> Result<Given, AllocError>
        requires { IsTrue (are_apart self.now.declared.now) }
        ensures given { IfOk result (λ given. given ≡ given_by self.now.declared.now (known self.now.macros.now)
            fields.now) }
        ensures messages { OnOk result (messages.new ≡ messages.old ++ messages_of_fields self.now fields.now) }
    {
        let count = self.declared.names().len();
        let mut values = SparseTexts::new(self.alloc, count);
        values.reserve(fields.len().min(count))?;
        let mut given = Given {
            values,
            crossref: None,
        };
        'fields: for field in fields {
            self.field(field, &mut given, messages)?;
        }
        Ok(given)
    }
}
