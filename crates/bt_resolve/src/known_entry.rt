//! What an earlier resolution knows of an entry.
//!
//! What is stored of an entry depends on its item, the declared fields and types, and what its macros stand for. So an
//! entry of an earlier resolution is stored as it was, if its macros stand for the same. Only its macros are looked up
//! then, and no value is made.

ghost use Rattle.std.specs.Prelude.{◌≡◌, IfOk, IsTrue, option_copied};
ghost use Rattle.bt_text.specs.ByName.{known};
ghost use Rattle.bt_resolve.specs.inner.KnownEntries.{AreSameFields, IsSamePart, IsSameValue, entry_of};

use crate::inheritance::shared;
use crate::macro_text::MacroText;
use crate::stored::{FieldValues, Stored};
use bt_bib::{Field, Part};
use bt_text::{ByName, Shared, equal_bytes};
use std::alloc::{AllocError, Global};

/// An entry that an earlier resolution stored without a message.
#[derive(Clone, Copy, Drop)]
pub struct KnownEntry<'a> {
    /// What was stored, but perhaps with older values.
    pub stored: &'a Stored,
    /// Its present values.
    pub values: &'a Shared<FieldValues>,
    /// The macros before it.
    pub macros: &'a ByName<MacroText>,
}

fn is_same_text(old: Option<&MacroText>, new: Option<&MacroText>) -> bool
    ensures { IsTrue result → option_copied old.entry ≡ option_copied new.entry }
{
    match (old, new) {
        (None, None) => true,
        (Some(old), Some(new)) => equal_bytes(old.as_slice(), new.as_slice()),
        _ => false,
    }
}

impl KnownEntry<'_> {
    /// The entry, which shares everything with the earlier one.
    pub fn share(&self) -> Result<Stored, AllocError>
        ensures { IfOk result (λ stored. stored ≡ entry_of self.now) }
    {
        let values = self.values.share()?;
        let crossref = shared(&self.stored.crossref)?;
        Ok(Stored {
            key: self.stored.key.share()?,
            kind: self.stored.kind.share()?,
            function: self.stored.function,
            crossref,
            values,
        })
    }

    fn is_same_part(
        &self,
        alloc: Global,
        part: &Part,
        macros: &ByName<MacroText>,
    ) -> Result<bool, AllocError>
        ensures { IfOk result (λ same. IsTrue same →
            IsSamePart (known self.now.macros.now) (known macros.now) part.now) }
    {
        match part {
            Part::Text(_) => Ok(true),
            Part::Macro(name, _) => {
                let old = self.macros.get(alloc, name.as_slice())?;
                let new = macros.get(alloc, name.as_slice())?;
                Ok(is_same_text(old, new))
            }
        }
    }

    fn is_same_value(
        &self,
        alloc: Global,
        parts: &[Part],
        macros: &ByName<MacroText>,
    ) -> Result<bool, AllocError>
        ensures { IfOk result (λ same. IsTrue same →
            IsSameValue (known self.now.macros.now) (known macros.now) parts.now) }
    {
        'parts: for k in 0..parts.len() {
            let same = self.is_same_part(alloc, &parts[k], macros)?;
            if !same {
                return Ok(false);
            }
        }
        Ok(true)
    }

    /// Whether the macros that these fields name stand for the same among other macros.
    pub fn are_same_fields(
        &self,
        alloc: Global,
        fields: &[Field],
        macros: &ByName<MacroText>,
    ) -> Result<bool, AllocError>
        ensures { IfOk result (λ same. IsTrue same →
            AreSameFields (known self.now.macros.now) (known macros.now) fields.now) }
    {
        'fields: for k in 0..fields.len() {
            let field = &fields[k];
            let same = self.is_same_value(alloc, field.value.as_slice(), macros)?;
            if !same {
                return Ok(false);
            }
        }
        Ok(true)
    }
}
