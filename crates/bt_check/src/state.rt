//! A state of a step on a set of paths: its stack, its variables, and what is known.

use crate::facts::{Facts, Meeting};
use crate::values::{Value, Values};
use bt_known::INTEGER;
use std::alloc::{AllocError, Global};

pub struct State {
    /// The literal stack, its top last.
    pub stack: Vec<Value>,
    /// What each variable holds, by its place.
    pub variables: Vec<Value>,
    pub facts: Facts,
}

/// Written out, as for `Facts`.
impl Drop for State {
    fn drop(self) {
        let State {
            stack: _stack,
            variables: _variables,
            facts: _facts,
        } = self;
    }
}

/// A value that is above 0 on the first of two paths only.
#[derive(Clone, Copy)]
struct Fork {
    test: Value,
    /// Whether it is above 0 on the second one, and not on the first.
    is_turned: bool,
}

impl State {
    pub fn copied(&self, alloc: Global) -> Result<State, AllocError> {
        let facts = self.facts.copied(alloc)?;
        self.with_facts(alloc, facts)
    }

    pub fn with_facts(&self, alloc: Global, facts: Facts) -> Result<State, AllocError> {
        Ok(State {
            stack: Vec::from_slice(alloc, self.stack.as_slice())?,
            variables: Vec::from_slice(alloc, self.variables.as_slice())?,
            facts,
        })
    }

    pub fn push(&mut self, value: Value) -> Result<(), AllocError> {
        Ok(self.stack.push(value)?)
    }

    /// Pushes a value, and adds the state to others.
    pub fn push_to(mut self, value: Value, next: &mut Vec<State>) -> Result<(), AllocError> {
        self.push(value)?;
        Ok(next.push(self)?)
    }

    pub fn depth(&self) -> usize {
        self.stack.len()
    }
}

impl Values {
    fn fork(&mut self, paths: Meeting<'_>, preferred: Option<Value>) -> Result<Fork, AllocError> {
        let Meeting { ours, theirs } = paths;
        if let Some(test) = preferred {
            if self.decide(ours, test) == Some(true) && self.decide(theirs, test) == Some(false) {
                return Ok(Fork {
                    test,
                    is_turned: false,
                });
            }
        }
        match ours.difference(theirs) {
            Some(test) => Ok(Fork {
                test,
                is_turned: ours.truth(test) == Some(false),
            }),
            None => Ok(Fork {
                test: self.any(INTEGER)?,
                is_turned: false,
            }),
        }
    }

    fn join_value(
        &mut self,
        fork: Fork,
        paths: Meeting<'_>,
        value: Value,
        other: Value,
    ) -> Result<Value, AllocError> {
        let kinds = self.kinds_of_either(paths, value, other)?;
        if fork.is_turned {
            self.choice(fork.test, other, value, kinds)
        } else {
            self.choice(fork.test, value, other, kinds)
        }
    }

    fn join_values(
        &mut self,
        fork: Fork,
        paths: Meeting<'_>,
        values: &mut Vec<Value>,
        others: &[Value],
    ) -> Result<(), AllocError> {
        for place in 0..others.len() {
            if let (Some(value), Some(other)) = (values.get_mut(place), others.get(place)) {
                if *value != *other {
                    *value = self.join_value(fork, paths, *value, *other)?;
                }
            }
        }
        Ok(())
    }

    /// Makes of a state one that covers another one of the same depth, too.
    pub fn join(
        &mut self,
        state: &mut State,
        other: &State,
        preferred: Option<Value>,
    ) -> Result<(), AllocError> {
        let paths = Meeting {
            ours: &state.facts,
            theirs: &other.facts,
        };
        let fork = self.fork(paths, preferred)?;
        self.join_values(fork, paths, &mut state.stack, other.stack.as_slice())?;
        self.join_values(
            fork,
            paths,
            &mut state.variables,
            other.variables.as_slice(),
        )?;
        state.facts = state.facts.joined(&other.facts, self.alloc)?;
        Ok(())
    }

    /// Adds a state to a list that has at most one of each depth.
    pub fn merge_in(
        &mut self,
        states: &mut Vec<State>,
        state: State,
        preferred: Option<Value>,
    ) -> Result<(), AllocError> {
        let depth = state.depth();
        match states.iter().position(|s| s.depth() == depth) {
            Some(place) => match states.get_mut(place) {
                Some(other) => self.join(other, &state, preferred),
                None => Ok(()),
            },
            None => Ok(states.push(state)?),
        }
    }

    pub fn merge(
        &mut self,
        states: Vec<State>,
        preferred: Option<Value>,
    ) -> Result<Vec<State>, AllocError> {
        if states.len() < 2 {
            return Ok(states);
        }
        let mut merged = Vec::new(self.alloc);
        for state in states {
            self.merge_in(&mut merged, state, preferred)?;
        }
        Ok(merged)
    }
}
