//! Values on the stack, kinds of arguments, and variables.

use bt_marks::Text;
use bt_style::Target;
use bt_text::Shared;
use std::alloc::{AllocError, Global};

/// A function in braces: the number of its body, and the call in which it was pushed, whose word it is.
#[derive(Clone, Copy)]
pub struct Block {
    pub body: usize,
    pub call: usize,
}

#[derive(Drop)]
pub enum Value {
    Number(i32),
    Text(Shared<Text>),
    Name(Target),
    Block(Block),
    /// The field of this number, which is missing.
    Missing(usize),
}

impl Value {
    pub fn share(&self) -> Result<Value, AllocError> {
        match self {
            Value::Number(number) => Ok(Value::Number(*number)),
            Value::Text(text) => Ok(Value::Text(text.share()?)),
            Value::Name(target) => Ok(Value::Name(*target)),
            Value::Block(block) => Ok(Value::Block(*block)),
            Value::Missing(field) => Ok(Value::Missing(*field)),
        }
    }
}

/// The kinds of values that an argument may have.
#[derive(Clone, Copy, PartialEq, Eq)]
pub enum Kind {
    Any,
    Number,
    Text,
    /// A text or a missing field.
    FieldText,
    Code,
    Name,
}

impl Kind {
    pub fn has(self, value: &Value) -> bool {
        match (self, value) {
            (Kind::Any, _)
            | (Kind::Number, Value::Number(_))
            | (Kind::Text | Kind::FieldText, Value::Text(_))
            | (Kind::FieldText, Value::Missing(_))
            | (Kind::Code | Kind::Name, Value::Name(_))
            | (Kind::Code, Value::Block(_)) => true,
            _ => false,
        }
    }
}

/// What can be run.
#[derive(Clone, Copy)]
pub enum Code {
    Name(Target),
    Block(Block),
}

/// The values of variables, each by its number.
#[derive(Drop)]
pub struct Variables {
    pub numbers: Vec<i32>,
    pub texts: Vec<Shared<Text>>,
}

impl Variables {
    /// This number of variables, each 0 or the empty text.
    pub fn blank(alloc: Global, numbers: usize, texts: usize) -> Result<Variables, AllocError> {
        let mut variables = Variables {
            numbers: Vec::new(alloc),
            texts: Vec::new(alloc),
        };
        let empty = Shared::new(alloc, Vec::new(alloc))?;
        for _ in 0..numbers {
            variables.numbers.push(0)?;
        }
        for _ in 0..texts {
            variables.texts.push(empty.share()?)?;
        }
        Ok(variables)
    }

    pub fn number(&self, place: usize) -> i32 {
        self.numbers.get(place).copied().unwrap_or(0)
    }

    /// Gives a variable a number, if it is there.
    pub fn set_number(&mut self, place: usize, number: i32) {
        if let Some(own) = self.numbers.get_mut(place) {
            *own = number;
        }
    }

    /// Gives a variable a text, if it is there.
    pub fn set_text(&mut self, place: usize, text: Shared<Text>) {
        if let Some(own) = self.texts.get_mut(place) {
            *own = text;
        }
    }
}
