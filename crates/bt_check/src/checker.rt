//! The evaluation of a style's words on states, and its faults.
//!
//! A style can't recurse (a body names only earlier functions), so each call is evaluated in its place, with the values
//! that it really gets. States of the same depth of the stack are joined; others are kept apart.

use crate::facts::Facts;
use crate::fault::{Call, Condition, Fault, FaultKind, FieldState, Step, kinds_words};
use crate::signature::takes;
use crate::splitting::Split;
use crate::state::State;
use crate::values::{Node, Value, Values, ZERO};
use crate::watching::Watch;
use bt_known::{ANY, INTEGER, Kinds, NONE, STRING};
use bt_style::{Builtin, Style, Target};
use bt_text::Bytes;
use bt_words::Program;
use std::alloc::{AllocError, Global};

const MOST_FAULTS: usize = 500;

#[derive(Drop)]
pub struct Checker<'a> {
    pub alloc: Global,
    pub style: &'a Style,
    pub program: &'a Program,
    pub values: Values,
    /// The functions that entries name as their types, in order.
    pub types: Vec<usize>,
    pub faults: Vec<Fault>,
    /// Whether faults are only counted.
    pub is_quiet: bool,
    pub quiet_count: usize,
    /// Whether the function that was run quietly takes from the stack of its caller, or leaves something there.
    pub is_like_helper: bool,
    /// The calls that are being evaluated.
    pub calls: Vec<Call>,
    pub step: Step,
    pub watch: Watch,
}

/// The arguments of a built-in function, from the lowest on.
pub type Arguments = [Value; 3];

impl<'a> Checker<'a> {
    /// The function and the line of the word that is evaluated.
    fn place(&self) -> Call {
        self.calls.last().copied().unwrap_or(Call {
            function: usize::MAX,
            line: self.step.line,
        })
    }

    fn is_told(&self, kind: FaultKind) -> bool {
        let place = self.place();
        self.faults.iter().any(|fault| {
            fault.kind == kind
                && fault.line == place.line
                && fault.calls.last().copied().unwrap_or(place).function == place.function
        })
    }

    fn field_state(&self, facts: &Facts, field: usize) -> Option<FieldState> {
        let value = self.values.find(Node::Field(field))?;
        let is_empty = self.values.truth_of(facts, Builtin::Empty, value);
        let is_missing = self.values.truth_of(facts, Builtin::Missing, value);
        match (is_empty, is_missing) {
            (_, Some(true)) => Some(FieldState::Missing),
            (Some(true), Some(false)) => Some(FieldState::Blank),
            (Some(true), None) => Some(FieldState::Empty),
            (Some(false), _) => Some(FieldState::Present),
            (None, Some(false)) => Some(FieldState::Given),
            (None, None) => None,
        }
    }

    fn conditions(&self, facts: &Facts) -> Result<Vec<Condition>, AllocError> {
        let mut conditions = Vec::new(self.alloc);
        for field in 0..self.style.fields.len() {
            if let Some(state) = self.field_state(facts, field) {
                conditions.push(Condition { field, state })?;
            }
        }
        Ok(conditions)
    }

    /// Notes a fault at the word that is evaluated, once for each kind, function and line.
    pub fn tell(
        &mut self,
        kind: FaultKind,
        by: Option<Builtin>,
        words: &[&[u8]],
        facts: &Facts,
    ) -> Result<(), AllocError> {
        self.quiet_count = self.quiet_count.saturating_add(1);
        self.is_like_helper |= match kind {
            FaultKind::Left => true,
            FaultKind::Empty => self.calls.len() <= 1,
            _ => false,
        };
        self.watch_fault(kind);
        if self.is_quiet || self.faults.len() >= MOST_FAULTS || self.is_told(kind) {
            return Ok(());
        }
        let fault = Fault {
            kind,
            words: Bytes::of(self.alloc, words)?,
            line: self.place().line,
            calls: Vec::from_slice(self.alloc, self.calls.as_slice())?,
            conditions: self.conditions(facts)?,
            step: self.step,
            by,
        };
        Ok(self.faults.push(fault)?)
    }

    fn tell_empty(&mut self, by: Builtin, facts: &Facts) -> Result<(), AllocError> {
        self.tell(
            FaultKind::Empty,
            Some(by),
            &[by.name(), b" finds too little on the stack"],
            facts,
        )
    }

    fn field_name(&self, value: Value) -> &'a [u8] {
        let style: &'a Style = self.style;
        match self.values.node(value) {
            Node::Field(field) => match style.fields.as_slice().get(field) {
                Some(name) => name.as_slice(),
                None => &[],
            },
            _ => &[],
        }
    }

    fn tell_kind(
        &mut self,
        by: Builtin,
        value: Value,
        wanted: Kinds,
        facts: &Facts,
    ) -> Result<(), AllocError> {
        let found = self.values.kinds(facts, value)?.without(wanted);
        let gets = kinds_words(self.alloc, found, self.field_name(value))?;
        let wants = kinds_words(self.alloc, wanted, b"")?;
        self.tell(
            FaultKind::Kind,
            Some(by),
            &[
                by.name(),
                b" gets ",
                gets.as_slice(),
                b", wants ",
                wants.as_slice(),
            ],
            facts,
        )
    }

    /// Leaves the paths on which a value has a wanted kind, and says whether there are any.
    pub fn settle(
        &mut self,
        by: Builtin,
        state: &mut State,
        value: Value,
        wanted: Kinds,
    ) -> Result<bool, AllocError> {
        self.watch_argument(&state.facts, value, wanted)?;
        match self.values.split(&state.facts, value, wanted)? {
            Split::Right => Ok(true),
            Split::Wrong => {
                self.tell_kind(by, value, wanted, &state.facts)?;
                Ok(false)
            }
            Split::Both { right, wrong } => {
                if let Some(wrong) = wrong {
                    self.tell_kind(by, value, wanted, &wrong)?;
                }
                match right {
                    Some(right) => {
                        state.facts = right;
                        Ok(true)
                    }
                    None => Ok(false),
                }
            }
        }
    }

    /// Takes a built-in function's arguments from the stack. None if no path goes on.
    pub fn take(
        &mut self,
        by: Builtin,
        state: &mut State,
    ) -> Result<Option<Arguments>, AllocError> {
        let wanted = takes(by);
        if state.stack.len() < wanted.len() {
            self.tell_empty(by, &state.facts)?;
            return Ok(None);
        }
        let mut arguments = [ZERO; 3];
        for place in (0..wanted.len()).rev() {
            let value = state.stack.pop().unwrap_or(ZERO);
            if let Some(argument) = arguments.get_mut(place) {
                *argument = value;
            }
            let kinds = wanted.get(place).copied().unwrap_or(ANY);
            if !self.settle(by, state, value, kinds)? {
                return Ok(None);
            }
        }
        Ok(Some(arguments))
    }

    /// What a variable's place is, and the kinds of what it holds.
    pub fn variable(&self, target: Target) -> Option<(usize, Kinds)> {
        let texts = self.style.entry_numbers.len();
        let globals = texts.saturating_add(self.style.entry_texts.len());
        let global_texts = globals.saturating_add(self.style.global_numbers.len());
        match target {
            Target::EntryNumber(place) => Some((place, INTEGER)),
            Target::EntryText(place) => Some((texts.saturating_add(place), STRING)),
            Target::GlobalNumber(place) => Some((globals.saturating_add(place), INTEGER)),
            Target::GlobalText(place) => Some((global_texts.saturating_add(place), STRING)),
            _ => None,
        }
    }

    pub fn variable_count(&self) -> usize {
        self.style
            .entry_numbers
            .len()
            .saturating_add(self.style.entry_texts.len())
            .saturating_add(self.style.global_numbers.len())
            .saturating_add(self.style.global_texts.len())
    }

    pub fn held(&mut self, state: &State, target: Target) -> Result<Value, AllocError> {
        match (target, self.variable(target)) {
            (Target::Field(field), _) => self.values.make(Node::Field(field), false),
            (_, Some((place, kinds))) => match state.variables.get(place) {
                Some(value) => Ok(*value),
                None => self.values.any(kinds),
            },
            _ => self.values.any(NONE),
        }
    }

    /// Whether a name can't be used in this step, which isn't for an entry.
    pub fn is_outside(&self, target: Target) -> bool {
        !self.step.is_of_entries
            && matches!(
                target,
                Target::Field(_) | Target::EntryNumber(_) | Target::EntryText(_)
            )
    }

    pub fn tell_outside(&mut self, name: &[u8], facts: &Facts) -> Result<(), AllocError> {
        self.tell(
            FaultKind::Entry,
            None,
            &[name, b" is used without an entry"],
            facts,
        )
    }
}
