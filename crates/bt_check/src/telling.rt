//! What a fault says beside its words: the calls that lead to it, and the entries for which it comes.

use crate::fault::{Call, Condition, Fault};
use bt_style::Style;
use bt_text::Bytes;
use std::alloc::{AllocError, Global};

/// The name of a style's function; empty if there is none of this number.
pub fn function_name(style: &Style, function: usize) -> &[u8] {
    match style.functions.as_slice().get(function) {
        Some(function) => function.name.as_slice(),
        None => b"",
    }
}

/// The name of a style's field; empty if there is none of this number.
pub fn field_name(style: &Style, field: usize) -> &[u8] {
    match style.fields.as_slice().get(field) {
        Some(name) => name.as_slice(),
        None => b"",
    }
}

pub fn decimal(alloc: Global, number: usize) -> Result<Bytes, AllocError> {
    Bytes::copied(alloc, format!(in alloc; "{number}")?.as_bytes())
}

impl Call {
    /// Its function, and the line of the word in it: `format.date:674`.
    pub fn words(self, alloc: Global, style: &Style) -> Result<Bytes, AllocError> {
        let line = decimal(alloc, self.line)?;
        Bytes::of(
            alloc,
            &[function_name(style, self.function), b":", line.as_slice()],
        )
    }
}

fn begin_next(words: &mut Bytes, between: &[u8]) -> Result<(), AllocError> {
    if words.len() > 0 {
        words.append(between)?;
    }
    Ok(())
}

impl Fault {
    /// The calls, the innermost first: `format.date:674 < article:810`. Empty if there are none.
    pub fn calls_words(&self, alloc: Global, style: &Style) -> Result<Bytes, AllocError> {
        let mut words = Bytes::new(alloc);
        for call in self.calls.iter().rev() {
            let call = call.words(alloc, style)?;
            begin_next(&mut words, b" < ")?;
            words.append(call.as_slice())?;
        }
        Ok(words)
    }

    fn add_condition(
        words: &mut Bytes,
        style: &Style,
        condition: Condition,
    ) -> Result<(), AllocError> {
        begin_next(words, b", ")?;
        words.append(field_name(style, condition.field))?;
        words.append(b" ")?;
        words.append(condition.state.word())
    }

    /// The entries: `@proceedings, editor empty`. Empty if nothing is known of them.
    pub fn condition_words(&self, alloc: Global, style: &Style) -> Result<Bytes, AllocError> {
        let mut words = Bytes::new(alloc);
        if let Some(function) = self.step.entry_type {
            words.append_all(&[b"@", function_name(style, function)])?;
        }
        for condition in &self.conditions {
            Fault::add_condition(&mut words, style, *condition)?;
        }
        Ok(words)
    }
}
