//! The functions that log values, and the table of all built-in functions.

use crate::machine::Machine;
use crate::values::Value;
use bt_actions::{Complaint, Flow};
use bt_marks::Source;
use bt_style::{Builtin, Style, Target};
use bt_text::Bytes;
use itoa::Buffer;
use std::alloc::AllocError;

fn name_at(names: &[Bytes], place: usize) -> &[u8] {
    match names.get(place) {
        Some(name) => name.as_slice(),
        None => &[],
    }
}

fn target_name(style: &Style, target: Target) -> &[u8] {
    match target {
        Target::Builtin(builtin) => builtin.name(),
        Target::Field(n) => name_at(style.fields.as_slice(), n),
        Target::EntryNumber(n) => name_at(style.entry_numbers.as_slice(), n),
        Target::EntryText(n) => name_at(style.entry_texts.as_slice(), n),
        Target::GlobalNumber(n) => name_at(style.global_numbers.as_slice(), n),
        Target::GlobalText(n) => name_at(style.global_texts.as_slice(), n),
        Target::Function(n) => match style.functions.get(n) {
            Some(function) => function.name.as_slice(),
            None => &[],
        },
    }
}

impl<'a> Machine<'a> {
    /// A value as the log shows it.
    fn shown(&self, value: &Value) -> Result<Bytes, AllocError> {
        match value {
            Value::Number(number) => {
                Bytes::copied(self.alloc, Buffer::new().format(*number).as_bytes())
            }
            Value::Text(text) => self.bytes(text.as_slice()),
            Value::Name(target) => {
                Bytes::of(self.alloc, &[b"`", target_name(self.style, *target), b"'"])
            }
            Value::Block(_) => Bytes::copied(self.alloc, b"`{}'"),
            Value::Missing(field) => {
                let name = name_at(self.style.fields.as_slice(), *field);
                Bytes::of(self.alloc, &[b"missing ", name])
            }
        }
    }

    /// Logs the top and takes it away, if there is one.
    fn log_top(&mut self) -> Result<bool, AllocError> {
        let Some(value) = self.stack.pop() else {
            return Ok(false);
        };
        let words = self.shown(&value)?;
        self.tell(Complaint::Shown(words))?;
        Ok(true)
    }

    fn log_stack(&mut self) -> Result<Flow, AllocError> {
        for _ in 0..self.stack.len() {
            self.log_top()?;
        }
        Ok(Flow::Go)
    }

    fn log_value(&mut self) -> Result<Flow, AllocError> {
        if !self.log_top()? {
            self.tell(Complaint::EmptyStack)?;
        }
        Ok(Flow::Go)
    }

    /// Calls a function of texts and numbers.
    fn call_of_values(&mut self, builtin: Builtin) -> Result<Flow, AllocError> {
        match builtin {
            Builtin::Greater | Builtin::Less | Builtin::Plus | Builtin::Minus => {
                self.two_numbers(builtin)
            }
            Builtin::Equals => self.equals(),
            Builtin::Join => self.join(),
            Builtin::AddPeriod | Builtin::Purify => self.text_to_text(builtin),
            Builtin::ChangeCase => self.convert_case(),
            Builtin::TextPrefix => self.prefix(),
            Builtin::Substring => self.cut(),
            Builtin::FormatName => self.format_name(),
            Builtin::NumNames | Builtin::TextLength | Builtin::Width => {
                self.text_to_count(builtin)
            }
            Builtin::ChrToInt => self.character_number(),
            Builtin::IntToChr => self.character(),
            Builtin::IntToStr => self.decimal(),
            Builtin::Empty | Builtin::Missing => self.test_field(builtin),
            _ => Ok(Flow::Go),
        }
    }

    /// Calls a built-in function.
    pub fn call_builtin(&mut self, builtin: Builtin) -> Result<Flow, AllocError> {
        match builtin {
            Builtin::Assign => self.assign(),
            Builtin::CallType => self.call_type(),
            Builtin::Cite => self.cite(),
            Builtin::Duplicate => self.duplicate(),
            Builtin::If => self.choose(),
            Builtin::Newline => self.newline(),
            Builtin::Pop => {
                self.drop_top()?;
                Ok(Flow::Go)
            }
            Builtin::Preamble => self.push_preamble(),
            Builtin::Quote => self.push_from(Source::Quote, b"\""),
            Builtin::Stack => self.log_stack(),
            Builtin::Swap => self.swap(),
            Builtin::Top => self.log_value(),
            Builtin::Type => self.entry_type(),
            Builtin::Warning => self.warning(),
            Builtin::While => self.repeat(),
            Builtin::Write => self.write(),
            _ => self.call_of_values(builtin),
        }
    }
}
