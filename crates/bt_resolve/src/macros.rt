//! What macros stand for, and the strings that define them.

ghost use Rattle.std.specs.Prelude.{◌≡◌, ◌++◌, option_copied, IfOk, OnOk};
ghost use Rattle.bt_text.specs.ByName.{known};
ghost use Rattle.bt_resolve.specs.Macros.{faultless, style_macro};
ghost use Rattle.bt_resolve.specs.inner.Cases.{with_string, preamble_value};
ghost use Rattle.bt_resolve.specs.inner.Readers.{messages_of_preamble, messages_of_string};

use crate::declared::Macro;
use crate::macro_text::MacroText;
use crate::reader::Reader;
use crate::values::ValueReader;
use bt_bib::{Definition, Item, ValueParts};
use bt_log::Message;
use bt_text::{ByName, Bytes, Sequence};
use std::alloc::{AllocError, Global};

pub fn style_macros(alloc: Global, macros: &[Macro]) -> Result<ByName<MacroText>, AllocError>
    ensures { IfOk result (λ table. known table ≡ style_macro macros.now) }
{
    let mut table = ByName::new(alloc);
    let count = macros.len();
    'macros: for behind in 0..count {
        let next = &macros[count - 1 - behind];
        let text = MacroText::new(alloc, next.value.as_slice())?;
        table.insert(alloc, next.name.as_slice(), text)?;
    }
    Ok(table)
}

/// The parts of a value that count: none if the item has a fault.
fn faultless<'a>(item: &Item, parts: &'a Option<ValueParts>) -> Option<&'a ValueParts>
    ensures { option_copied result ≡ faultless item.now.fault parts.now }
{
    match item.fault {
        None => parts.as_ref(),
        Some(_) => None,
    }
}

impl Reader<'_, '_> {
    /// Reads a string: its macro is defined, unless the item has a fault.
    pub fn string(
        &self,
        string: &Definition,
        macros: &mut ByName<MacroText>,
        messages: &mut Sequence<Message>,
    ) -> Result<(), AllocError>
        ensures macros { OnOk result (known macros.new ≡ with_string string.now.name
            (faultless self.now.item.now.fault string.now.value) (known macros.old)) }
        ensures messages { OnOk result (messages.new ≡ messages.old
            ++ messages_of_string self.now (known macros.old) string.now) }
    {
        let Some(name) = &string.name else {
            return Ok(());
        };
        let Some(parts) = faultless(self.item, &string.value) else {
            return Ok(());
        };
        let name = name.as_slice();
        let reader = ValueReader {
            alloc: self.alloc,
            macros,
            own: Some(name),
            origin: self.origin,
        };
        let value = reader.value(name, self.item.line, parts.as_slice(), messages)?;
        macros.insert(self.alloc, name, MacroText::of_value(value)?)
    }

    /// Adds the messages of a string, but doesn't define its macro.
    pub fn tell_string(
        &self,
        string: &Definition,
        macros: &ByName<MacroText>,
        messages: &mut Sequence<Message>,
    ) -> Result<(), AllocError>
        ensures { OnOk result (messages.new ≡ messages.old
            ++ messages_of_string self.now (known macros.now) string.now) }
    {
        let Some(name) = &string.name else {
            return Ok(());
        };
        let Some(parts) = faultless(self.item, &string.value) else {
            return Ok(());
        };
        let name = name.as_slice();
        let reader = ValueReader {
            alloc: self.alloc,
            macros,
            own: Some(name),
            origin: self.origin,
        };
        let _value = reader.value(name, self.item.line, parts.as_slice(), messages)?;
        Ok(())
    }

    /// Reads a preamble: its value is appended to `preamble`, unless the item has a fault.
    pub fn preamble(
        &self,
        parts: &Option<ValueParts>,
        macros: &ByName<MacroText>,
        preamble: &mut Bytes,
        messages: &mut Sequence<Message>,
    ) -> Result<(), AllocError>
        ensures preamble { OnOk result (preamble.new ≡ preamble.old ++ preamble_value (known macros.now)
            (faultless self.now.item.now.fault parts.now)) }
        ensures messages { OnOk result (messages.new ≡ messages.old
            ++ messages_of_preamble self.now (known macros.now) parts.now) }
    {
        let Some(parts) = faultless(self.item, parts) else {
            return Ok(());
        };
        let reader = ValueReader {
            alloc: self.alloc,
            macros,
            own: None,
            origin: self.origin,
        };
        let value = reader.value(b"preamble", self.item.line, parts.as_slice(), messages)?;
        preamble.append(value.as_slice())
    }
}
