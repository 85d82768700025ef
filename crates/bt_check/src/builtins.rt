//! The built-in functions that run no other function.

use crate::checker::{Arguments, Checker};
use crate::fault::FaultKind;
use crate::signature::is_of_entries;
use crate::state::State;
use crate::values::{Node, Value, ZERO};
use bt_known::{INTEGER, Kinds, STRING};
use bt_style::Builtin;
use std::alloc::AllocError;

fn is_mode(text: &[u8]) -> bool {
    matches!(text, b"t" | b"T" | b"l" | b"L" | b"u" | b"U")
}

impl<'a> Checker<'a> {
    fn check_constants(
        &mut self,
        by: Builtin,
        arguments: Arguments,
        state: &State,
    ) -> Result<(), AllocError> {
        let [first, second, _] = arguments;
        match (by, self.values.node(first), self.values.node(second)) {
            (Builtin::ChangeCase, _, Node::Text(number)) if !is_mode(self.program.text(number)) => {
                self.tell(
                    FaultKind::Case,
                    Some(by),
                    &[b"change.case$ gets neither t, l nor u"],
                    &state.facts,
                )
            }
            (Builtin::ChrToInt, Node::Text(number), _) if self.program.text(number).len() != 1 =>
                self.tell(
                    FaultKind::Character,
                    Some(by),
                    &[b"chr.to.int$ gets a text that isn't one byte"],
                    &state.facts,
                ),
            (Builtin::IntToChr, Node::Integer(number), _) if number < 0 || number > 127 =>
                self.tell(
                    FaultKind::Character,
                    Some(by),
                    &[b"int.to.chr$ gets a number that isn't between 0 and 127"],
                    &state.facts,
                ),
            _ => Ok(()),
        }
    }

    /// The kinds that both operands of `=` must have: an integer's, or a string's.
    fn operands_kind(
        &mut self,
        first: Value,
        second: Value,
        state: &State,
    ) -> Result<Kinds, AllocError> {
        let ours = self.values.kinds(&state.facts, first)?;
        let theirs = self.values.kinds(&state.facts, second)?;
        Ok(if ours.integer && theirs.integer {
            INTEGER
        } else {
            STRING
        })
    }

    fn equals(
        &mut self,
        state: &mut State,
        first: Value,
        second: Value,
    ) -> Result<bool, AllocError> {
        let wanted = self.operands_kind(first, second, state)?;
        if !self.settle(Builtin::Equals, state, first, wanted)?
            || !self.settle(Builtin::Equals, state, second, wanted)?
        {
            return Ok(false);
        }
        let made = self.values.made(Builtin::Equals, [first, second, ZERO])?;
        state.push(made)?;
        Ok(true)
    }

    fn assign(&mut self, state: &mut State, value: Value, to: Value) -> Result<bool, AllocError> {
        let target = match self.values.node(to) {
            Node::Quoted(target) => Some(target),
            _ => None,
        };
        let variable = match target {
            Some(target) => self.variable(target),
            None => None,
        };
        let (Some(target), Some((place, kinds))) = (target, variable) else {
            self.tell(
                FaultKind::Variable,
                Some(Builtin::Assign),
                &[b":= needs a variable"],
                &state.facts,
            )?;
            return Ok(false);
        };
        if self.is_outside(target) {
            self.tell_outside(b":= to a variable of entries", &state.facts)?;
            return Ok(false);
        }
        if !self.settle(Builtin::Assign, state, value, kinds)? {
            return Ok(false);
        }
        if let Some(held) = state.variables.get_mut(place) {
            *held = value;
        }
        Ok(true)
    }

    fn push_made(
        &mut self,
        by: Builtin,
        arguments: Arguments,
        state: &mut State,
    ) -> Result<bool, AllocError> {
        self.check_constants(by, arguments, state)?;
        let made = self.values.made(by, arguments)?;
        state.push(made)?;
        Ok(true)
    }

    fn push_two(
        &mut self,
        state: &mut State,
        lower: Value,
        upper: Value,
    ) -> Result<bool, AllocError> {
        state.push(lower)?;
        state.push(upper)?;
        Ok(true)
    }

    /// Runs a built-in function that runs no other function, and says whether any path goes on.
    pub fn basic(&mut self, by: Builtin, state: &mut State) -> Result<bool, AllocError> {
        if is_of_entries(by) && !self.step.is_of_entries {
            self.tell_outside(by.name(), &state.facts)?;
            return Ok(false);
        }
        let Some(arguments) = self.take(by, state)? else {
            return Ok(false);
        };
        let [first, second, _] = arguments;
        match by {
            Builtin::Equals => self.equals(state, first, second),
            Builtin::Assign => self.assign(state, first, second),
            Builtin::Duplicate => self.push_two(state, first, first),
            Builtin::Swap => self.push_two(state, second, first),
            Builtin::Stack => {
                state.stack.clear();
                Ok(true)
            }
            Builtin::Pop
            | Builtin::Top
            | Builtin::Write
            | Builtin::Warning
            | Builtin::Newline
            | Builtin::Skip => Ok(true),
            _ => self.push_made(by, arguments, state),
        }
    }
}
