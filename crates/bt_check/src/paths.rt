//! What the words that run functions do with states, besides running functions.

use crate::checker::{Arguments, Checker};
use crate::facts::Facts;
use crate::fault::{Call, FaultKind};
use crate::state::State;
use crate::values::{Node, Value, ZERO};
use bt_style::{Builtin, Target};
use bt_words::{Act, Program};
use std::alloc::AllocError;

/// The state on the paths on which the entry's type has this function; none if it has no function.
#[derive(Drop)]
pub struct Typed {
    pub function: Option<usize>,
    pub state: State,
}

impl<'a> Checker<'a> {
    /// Ends the analysis, which then says nothing of what is left.
    pub fn give_up(&mut self) {
        self.values.work = 0;
    }

    pub fn spend(&mut self) -> bool {
        self.values.spend()
    }

    pub fn node(&self, value: Value) -> Node {
        self.values.node(value)
    }

    pub fn at_line(&mut self, line: usize) {
        if let Some(call) = self.calls.last_mut() {
            call.line = line;
        }
    }

    pub fn line(&self) -> usize {
        match self.calls.last() {
            Some(call) => call.line,
            None => 0,
        }
    }

    pub fn open_call(&mut self, function: usize) -> Result<(), AllocError> {
        let line = self.program.lines.get(function).copied().unwrap_or(0);
        Ok(self.calls.push(Call { function, line })?)
    }

    pub fn close_call(&mut self) {
        let _ = self.calls.pop();
    }

    pub fn only(&self, state: State) -> Result<Vec<State>, AllocError> {
        let mut states = Vec::new(self.alloc);
        states.push(state)?;
        Ok(states)
    }

    pub fn merged(&mut self, states: Vec<State>) -> Result<Vec<State>, AllocError> {
        self.values.merge(states, None)
    }

    pub fn merge_to(
        &mut self,
        states: Vec<State>,
        preferred: Option<Value>,
        next: &mut Vec<State>,
    ) -> Result<(), AllocError> {
        let mut merged = self.values.merge(states, preferred)?;
        Ok(next.append(&mut merged)?)
    }

    fn constant(&mut self, act: Act) -> Result<Value, AllocError> {
        let program: &'a Program = self.program;
        match act {
            Act::Integer(number) => self.values.integer(number),
            Act::Text(number) => self.values.text(number, program.is_solid(number)),
            Act::Quote(target) => self.values.make(Node::Quoted(target), false),
            Act::Block(body) => self.values.make(Node::Block(body), false),
            Act::Call(_) => Ok(ZERO),
        }
    }

    pub fn push_constant(
        &mut self,
        act: Act,
        state: State,
        next: &mut Vec<State>,
    ) -> Result<(), AllocError> {
        let value = self.constant(act)?;
        state.push_to(value, next)
    }

    pub fn push_held(
        &mut self,
        target: Target,
        state: State,
        next: &mut Vec<State>,
    ) -> Result<(), AllocError> {
        if self.is_outside(target) {
            return self.tell_outside(b"a field or variable of entries", &state.facts);
        }
        let value = self.held(&state, target)?;
        state.push_to(value, next)
    }

    pub fn push_basic(
        &mut self,
        by: Builtin,
        mut state: State,
        next: &mut Vec<State>,
    ) -> Result<(), AllocError> {
        if self.basic(by, &mut state)? {
            next.push(state)?;
        }
        Ok(())
    }

    /// A built-in function's arguments, and the state without them, if any path goes on.
    pub fn taken(
        &mut self,
        by: Builtin,
        mut state: State,
    ) -> Result<(Arguments, Option<State>), AllocError> {
        match self.take(by, &mut state)? {
            Some(arguments) => Ok((arguments, Some(state))),
            None => Ok(([ZERO; 3], None)),
        }
    }

    pub fn forked(
        &mut self,
        test: Value,
        state: Option<State>,
    ) -> Result<(Option<State>, Option<State>), AllocError> {
        let Some(mut state) = state else {
            return Ok((None, None));
        };
        let yes = match self.values.refine(&state.facts, test, true)? {
            Some(facts) => Some(state.with_facts(self.alloc, facts)?),
            None => None,
        };
        match self.values.refine(&state.facts, test, false)? {
            Some(facts) => {
                state.facts = facts;
                Ok((yes, Some(state)))
            }
            None => Ok((yes, None)),
        }
    }

    pub fn tell_unknown(&mut self, state: &State) -> Result<(), AllocError> {
        self.tell(
            FaultKind::Unknown,
            None,
            &[b"a function that isn't known before a run is run"],
            &state.facts,
        )
    }

    fn is_in_type(&self) -> bool {
        self.calls.iter().any(|call| {
            self.types.contains(&call.function) || self.program.default_type == Some(call.function)
        })
    }

    /// Whether `call.type$` can run here: for an entry, and in no type's function.
    pub fn may_call_type(&mut self, state: &State) -> Result<bool, AllocError> {
        if !self.step.is_of_entries {
            self.tell_outside(b"call.type$", &state.facts)?;
            return Ok(false);
        }
        if self.watch.is_alone {
            // The functions of the types that databases name aren't known.
            self.give_up();
            return Ok(false);
        }
        if self.is_in_type() {
            self.tell(
                FaultKind::Recursion,
                Some(Builtin::CallType),
                &[b"call.type$ is used in a type's function"],
                &state.facts,
            )?;
            return Ok(false);
        }
        Ok(true)
    }

    fn facts_of_type(
        &mut self,
        facts: &Facts,
        function: usize,
    ) -> Result<Option<Facts>, AllocError> {
        let kind = self.values.plain(Builtin::Type, ZERO, ZERO, ZERO)?;
        let name = self.values.text(function, true)?;
        let test = self.values.made(Builtin::Equals, [kind, name, ZERO])?;
        self.values.refine(facts, test, true)
    }

    fn add_typed(
        &mut self,
        state: &State,
        function: usize,
        all: &mut Vec<Typed>,
    ) -> Result<(), AllocError> {
        if let Some(facts) = self.facts_of_type(&state.facts, function)? {
            all.push(Typed {
                function: Some(function),
                state: state.with_facts(self.alloc, facts)?,
            })?;
        }
        Ok(())
    }

    pub fn typed(&mut self, state: State) -> Result<Vec<Typed>, AllocError> {
        let mut all = Vec::new(self.alloc);
        let mut function = self.step.entry_type;
        if function.is_none() {
            let types = Vec::from_slice(self.alloc, self.types.as_slice())?;
            for one in types {
                self.add_typed(&state, one, &mut all)?;
            }
            function = self.program.default_type;
        }
        all.push(Typed { function, state })?;
        Ok(all)
    }
}
