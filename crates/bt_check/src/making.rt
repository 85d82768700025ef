//! What built-in functions make of values; what is known before a run is computed.

use crate::values::{Choice, Node, ONE, TREE_DEPTH, Value, Values, ZERO};
use bt_known::INTEGER;
use bt_style::Builtin;
use std::alloc::AllocError;

fn bit(is_so: bool) -> Value {
    if is_so { ONE } else { ZERO }
}

/// What an arithmetic built-in function makes of two integers, if it fits 32 bits.
fn computed(by: Builtin, first: i32, second: i32) -> Option<i32> {
    match by {
        Builtin::Greater => Some(i32::from(first > second)),
        Builtin::Less => Some(i32::from(first < second)),
        Builtin::Equals => Some(i32::from(first == second)),
        Builtin::Plus => first.checked_add(second),
        Builtin::Minus => first.checked_sub(second),
        _ => None,
    }
}

impl Values {
    pub fn integer(&mut self, number: i32) -> Result<Value, AllocError> {
        self.make(Node::Integer(number), false)
    }

    pub fn made(&mut self, by: Builtin, arguments: [Value; 3]) -> Result<Value, AllocError> {
        let [first, second, third] = arguments;
        match by {
            Builtin::Empty | Builtin::Missing => self.tested(by, first, TREE_DEPTH),
            Builtin::NumNames => {
                let is_empty = self.tested(Builtin::Empty, first, TREE_DEPTH)?;
                self.plain(by, first, is_empty, ZERO)
            }
            Builtin::Equals => self.equality(first, second),
            Builtin::Greater | Builtin::Less | Builtin::Plus | Builtin::Minus => {
                self.arithmetic(by, first, second)
            }
            _ => self.plain(by, first, second, third),
        }
    }

    fn arithmetic(
        &mut self,
        by: Builtin,
        first: Value,
        second: Value,
    ) -> Result<Value, AllocError> {
        if let (Node::Integer(a), Node::Integer(b)) = (self.node(first), self.node(second)) {
            if let Some(number) = computed(by, a, b) {
                return self.integer(number);
            }
        }
        self.plain(by, first, second, ZERO)
    }

    fn equality(&mut self, first: Value, second: Value) -> Result<Value, AllocError> {
        if first == second {
            return Ok(ONE);
        }
        match (self.node(first), self.node(second)) {
            (Node::Text(_), Node::Text(_)) => Ok(ZERO),
            (Node::Text(_), _) => self.plain(Builtin::Equals, second, first, ZERO),
            _ => self.arithmetic(Builtin::Equals, first, second),
        }
    }

    /// Whether a string or field is empty, or is missing.
    #[cycle(testing)]
    pub fn tested(&mut self, by: Builtin, value: Value, depth: usize) -> Result<Value, AllocError> {
        if depth == 0 {
            return self.any(INTEGER);
        }
        match self.node(value) {
            Node::Choice(choice) => self.choice_tested(by, choice, depth - 1),
            Node::Field(_) | Node::Unknown(_) => self.plain(by, value, ZERO, ZERO),
            Node::Text(_) => Ok(bit(by == Builtin::Empty && !self.is_solid(value))),
            _ => {
                if by == Builtin::Missing || self.is_solid(value) {
                    Ok(ZERO)
                } else {
                    self.plain(by, value, ZERO, ZERO)
                }
            }
        }
    }

    #[cycle(testing)]
    fn choice_tested(
        &mut self,
        by: Builtin,
        choice: Choice,
        depth: usize,
    ) -> Result<Value, AllocError> {
        if depth == 0 {
            return self.any(INTEGER);
        }
        let then = self.tested(by, choice.then, depth - 1)?;
        let other = self.tested(by, choice.other, depth - 1)?;
        self.choice(choice.test, then, other, INTEGER)
    }

    /// The constant of a text's number. `is_solid` says that it isn't empty.
    pub fn text(&mut self, number: usize, is_solid: bool) -> Result<Value, AllocError> {
        self.make(Node::Text(number), is_solid)
    }
}
