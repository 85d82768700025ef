//! What fields, variables and the entry push, assignment, and the functions that only move values.

use crate::machine::Machine;
use crate::values::{Kind, Value, Variables};
use bt_actions::{Complaint, Flow, STACK_LIMIT};
use bt_marks::Source;
use bt_style::{Builtin, Target};
use std::alloc::AllocError;

fn give_number(own: Option<&mut Variables>, place: usize, value: Value) -> Option<Complaint> {
    let Some(own) = own else {
        return Some(Complaint::NoEntry);
    };
    match value {
        Value::Number(number) => {
            own.set_number(place, number);
            None
        }
        _ => Some(Complaint::WrongKind(Builtin::Assign)),
    }
}

fn give_text(own: Option<&mut Variables>, place: usize, value: Value) -> Option<Complaint> {
    let Some(own) = own else {
        return Some(Complaint::NoEntry);
    };
    match value {
        Value::Text(text) => {
            own.set_text(place, text);
            None
        }
        _ => Some(Complaint::WrongKind(Builtin::Assign)),
    }
}

impl<'a> Machine<'a> {
    pub fn field(&mut self, field: usize) -> Result<Flow, AllocError> {
        let Some(entry) = self.own_entry() else {
            return self.push_empty_in_error(Complaint::NoEntry);
        };
        if !self.left.fields.contains(&field) {
            self.left.fields.push(field)?;
        }
        match entry.fields.get(field) {
            Some(text) => self.push_from(Source::Field(field), text.as_slice()),
            None => self.push(Value::Missing(field)),
        }
    }

    pub fn entry_number(&mut self, place: usize) -> Result<Flow, AllocError> {
        let number = self.own_variables().map(|own| own.number(place));
        match number {
            Some(number) => self.push(Value::Number(number)),
            None => self.push_zero_in_error(Complaint::NoEntry),
        }
    }

    pub fn entry_text(&mut self, place: usize) -> Result<Flow, AllocError> {
        let Some(own) = self.own_variables() else {
            return self.push_empty_in_error(Complaint::NoEntry);
        };
        match own.texts.get(place) {
            Some(text) => {
                let text = text.share()?;
                self.push_shared(text)
            }
            None => self.push_empty(),
        }
    }

    pub fn global_text(&mut self, place: usize) -> Result<Flow, AllocError> {
        match self.globals.texts.get(place) {
            Some(text) => {
                let text = text.share()?;
                self.push_shared(text)
            }
            None => self.push_empty(),
        }
    }

    pub fn cite(&mut self) -> Result<Flow, AllocError> {
        match self.own_entry() {
            Some(entry) => self.push_from(Source::Key, entry.key.as_slice()),
            None => self.push_empty_in_error(Complaint::NoEntry),
        }
    }

    pub fn entry_type(&mut self) -> Result<Flow, AllocError> {
        match self.own_entry() {
            Some(entry) if entry.function.is_some() => {
                self.push_from(Source::Type, entry.kind.as_slice())
            }
            Some(_) => self.push_empty(),
            None => self.push_empty_in_error(Complaint::NoEntry),
        }
    }

    pub fn push_preamble(&mut self) -> Result<Flow, AllocError> {
        let preamble: &'a [u8] = self.preamble;
        self.push_from(Source::Preamble, preamble)
    }

    pub fn duplicate(&mut self) -> Result<Flow, AllocError> {
        if self.stack.len() >= STACK_LIMIT {
            return self.pass_text_limit();
        }
        match self.stack.last() {
            Some(value) => {
                let value = value.share()?;
                self.push(value)
            }
            None => {
                self.tell(Complaint::EmptyStack)?;
                Ok(Flow::Go)
            }
        }
    }

    pub fn swap(&mut self) -> Result<Flow, AllocError> {
        if self.stack.len() < 2 {
            self.tell(Complaint::EmptyStack)?;
            return Ok(Flow::Go);
        }
        if let (Some(upper), Some(lower)) = (self.stack.pop(), self.stack.pop()) {
            self.stack.push(upper)?;
            self.stack.push(lower)?;
        }
        Ok(Flow::Go)
    }

    /// Gives a variable a value: what is wrong, if it can't have it.
    fn give(&mut self, target: Target, value: Value) -> Option<Complaint> {
        match target {
            Target::EntryNumber(place) => give_number(self.own_variables_mut(), place, value),
            Target::EntryText(place) => give_text(self.own_variables_mut(), place, value),
            Target::GlobalNumber(place) => give_number(Some(&mut self.globals), place, value),
            Target::GlobalText(place) => give_text(Some(&mut self.globals), place, value),
            Target::Builtin(_) | Target::Field(_) | Target::Function(_) => {
                Some(Complaint::NotVariable)
            }
        }
    }

    pub fn assign(&mut self) -> Result<Flow, AllocError> {
        if !self.finds(Builtin::Assign, &[Kind::Name, Kind::Any])? {
            return Ok(Flow::Go);
        }
        if let (Some(Value::Name(target)), Some(value)) = (self.stack.pop(), self.stack.pop())
            && let Some(complaint) = self.give(target, value)
        {
            self.tell(complaint)?;
        }
        Ok(Flow::Go)
    }
}
