//! What one function takes from the stack and leaves there, and what lies on the stack before one of its words.
//!
//! The function is run alone, on a stack of values of which nothing is known: once to see which of them it takes and what
//! their kinds must be, and once with values of these kinds. So the answer costs what the function and those that it calls
//! cost, whatever the size of the style.
//!
//! Where a built-in function complains, the path ends: what is found holds up to the first such message. A function that
//! runs what it was given, or `call.type$`, can't be run alone.

use crate::checker::Checker;
use crate::evaluation::DEPTH;
use crate::facts::Facts;
use crate::fault::{FaultKind, Step};
use crate::state::State;
use crate::values::{Node, Value};
use bt_known::{ANY, Kinds};
use bt_style::{Style, Target};
use bt_words::Program;
use std::alloc::{AllocError, Global};
use std::mem;

/// How many values lie on the stack when a function begins that is watched. Real functions take at most five.
const ARGUMENTS: usize = 12;

/// A word: the number of its body, and its own number in it.
#[derive(Clone, Copy, PartialEq, Eq)]
pub struct Spot {
    pub body: usize,
    pub number: usize,
}

/// What is known of a value on the stack.
#[derive(Clone, Copy)]
pub enum Lying {
    Integer(i32),
    /// The constant of this number.
    Text(usize),
    /// The entry's field of this number.
    Field(usize),
    /// A value of one of these kinds.
    Of(Kinds),
}

/// What a function does with the stack.
#[derive(Drop)]
pub struct Watched {
    /// The kinds of what it takes, the top last.
    pub takes: Vec<Kinds>,
    /// What can lie in the place of what it took when it ends, the top last: one list for each number of values.
    pub leaves: Vec<Vec<Lying>>,
    /// The same before the word, with what it takes later.
    pub before: Vec<Vec<Lying>>,
}

/// What is noted while a function runs alone.
#[derive(Drop)]
pub struct Watch {
    /// Whether one does.
    pub is_alone: bool,
    /// The kinds that built-in functions want of values.
    asked: Vec<(Value, Kinds)>,
    /// The word before which states are noted.
    spot: Option<Spot>,
    states: Vec<State>,
}

impl Watch {
    pub fn nothing(alloc: Global) -> Watch {
        Watch {
            is_alone: false,
            asked: Vec::new(alloc),
            spot: None,
            states: Vec::new(alloc),
        }
    }

    /// The kinds that a value must have; none if no built-in function takes it.
    fn wanted(&self, value: Value) -> Option<Kinds> {
        let mut found = None;
        for (other, kinds) in &self.asked {
            if *other == value {
                let so_far: Kinds = found.unwrap_or(ANY);
                let both = so_far.and(*kinds);
                found = Some(if both.is_empty() { so_far } else { both });
            }
        }
        found
    }
}

/// How many of the first values a stack still has in their places.
fn untouched(arguments: &[Value], stack: &[Value]) -> usize {
    arguments
        .iter()
        .zip(stack.iter())
        .take_while(|(argument, value)| **argument == **value)
        .count()
}

impl<'a> Checker<'a> {
    /// Notes the kinds that a built-in function wants of a value. Those that it can't have on this path are all right.
    pub fn watch_argument(
        &mut self,
        facts: &Facts,
        value: Value,
        wanted: Kinds,
    ) -> Result<(), AllocError> {
        if self.watch.is_alone {
            let known = self.values.kinds(facts, value)?;
            self.watch
                .asked
                .push((value, wanted.or(ANY.without(known))))?;
        }
        Ok(())
    }

    /// Gives up at a fault behind which a run goes on in a way that isn't followed.
    pub fn watch_fault(&mut self, kind: FaultKind) {
        if self.watch.is_alone
            && matches!(
                kind,
                FaultKind::Variable | FaultKind::Loop | FaultKind::Unknown
            )
        {
            self.give_up();
        }
    }

    /// Notes the states before a word that is watched.
    pub fn watch_word(
        &mut self,
        body: usize,
        number: usize,
        states: &[State],
    ) -> Result<(), AllocError> {
        if self.watch.spot != Some(Spot { body, number }) {
            return Ok(());
        }
        for state in states {
            let copy = state.copied(self.alloc)?;
            self.values.merge_in(&mut self.watch.states, copy, None)?;
        }
        Ok(())
    }

    fn arguments(&mut self, kinds: &[Kinds]) -> Result<Vec<Value>, AllocError> {
        let mut arguments = Vec::new(self.alloc);
        for one in kinds {
            arguments.push(self.values.any(*one)?)?;
        }
        Ok(arguments)
    }

    /// The states in which a function ends that begins with these values on the stack.
    fn run_alone(
        &mut self,
        function: usize,
        arguments: &[Value],
    ) -> Result<Vec<State>, AllocError> {
        self.is_quiet = true;
        self.watch.is_alone = true;
        self.calls.clear();
        self.step = Step {
            function: Some(function),
            line: 0,
            is_of_entries: true,
            entry_type: None,
        };
        let mut state = self.first_state(&[])?;
        for value in arguments {
            state.push(*value)?;
        }
        let mut ends = Vec::new(self.alloc);
        self.call(Target::Function(function), state, &mut ends, DEPTH)?;
        Ok(ends)
    }

    /// The kinds of the values that a function takes; none if that isn't known.
    fn taken_by(&mut self, function: usize) -> Result<Option<Vec<Kinds>>, AllocError> {
        let arguments = self.arguments(&[ANY; ARGUMENTS])?;
        let ends = self.run_alone(function, arguments.as_slice())?;
        let mut left = arguments.len();
        for end in &ends {
            left = left.min(untouched(arguments.as_slice(), end.stack.as_slice()));
        }
        let mut takes = Vec::new(self.alloc);
        for (place, value) in arguments.iter().enumerate() {
            let wanted = self.watch.wanted(*value);
            if place >= left || wanted.is_some() || takes.len() > 0 {
                takes.push(wanted.unwrap_or(ANY))?;
            }
        }
        Ok(if ends.is_empty() || takes.len() == ARGUMENTS {
            None
        } else {
            Some(takes)
        })
    }

    fn lying(&mut self, facts: &Facts, value: Value) -> Result<Lying, AllocError> {
        Ok(match self.values.node(value) {
            Node::Integer(number) => Lying::Integer(number),
            Node::Text(number) => Lying::Text(number),
            Node::Field(field) => Lying::Field(field),
            _ => Lying::Of(self.values.kinds(facts, value)?),
        })
    }

    fn lying_stack(&mut self, state: &State) -> Result<Vec<Lying>, AllocError> {
        let mut stack = Vec::new(self.alloc);
        for value in &state.stack {
            stack.push(self.lying(&state.facts, *value)?)?;
        }
        Ok(stack)
    }

    fn all_lying(&mut self, states: &[State]) -> Result<Vec<Vec<Lying>>, AllocError> {
        let mut all = Vec::new(self.alloc);
        for state in states {
            all.push(self.lying_stack(state)?)?;
        }
        Ok(all)
    }

    /// What a function does with values of these kinds.
    fn watch_with(
        &mut self,
        function: usize,
        spot: Option<Spot>,
        takes: Vec<Kinds>,
    ) -> Result<Watched, AllocError> {
        let arguments = self.arguments(takes.as_slice())?;
        self.watch = Watch::nothing(self.alloc);
        self.watch.spot = spot;
        let ends = self.run_alone(function, arguments.as_slice())?;
        let before = mem::replace(&mut self.watch.states, Vec::new(self.alloc));
        Ok(Watched {
            leaves: self.all_lying(ends.as_slice())?,
            before: self.all_lying(before.as_slice())?,
            takes,
        })
    }

    fn watch_function(
        &mut self,
        function: usize,
        spot: Option<Spot>,
    ) -> Result<Option<Watched>, AllocError> {
        let Some(takes) = self.taken_by(function)? else {
            return Ok(None);
        };
        let found = self.watch_with(function, spot, takes)?;
        Ok(if self.values.work == 0 || found.leaves.is_empty() {
            None
        } else {
            Some(found)
        })
    }
}

/// Watches functions of a style, each for at most this many steps of analysis.
#[derive(Clone, Copy)]
pub struct Watcher<'a> {
    pub style: &'a Style,
    pub program: &'a Program,
    pub work: u64,
}

impl Watcher<'_> {
    /// What the function of this number does with the stack, and what lies there before a word. None if that isn't
    /// known. The one error is out of memory.
    pub fn watch(
        &self,
        alloc: Global,
        function: usize,
        spot: Option<Spot>,
    ) -> Result<Option<Watched>, AllocError> {
        let mut checker = Checker::new(alloc, self.style, self.program, self.work)?;
        let found = checker.watch_function(function, spot);
        drop(checker);
        found
    }
}
