//! The steps of a style: each command that runs a function, and for `call.type$` each type.

use crate::checker::Checker;
use crate::evaluation::DEPTH;
use crate::facts::Facts;
use crate::fault::{Call, Fault, FaultKind, Step, kinds_words};
use crate::state::State;
use crate::types::{Catalogue, all_words};
use crate::values::{EMPTY, Node, Value, Values, ZERO};
use crate::watching::Watch;
use bt_style::{Action, Builtin, Command, Style, Target};
use bt_words::{Act, Program};
use std::alloc::{AllocError, Global};

#[derive(Drop)]
pub struct Findings {
    pub faults: Vec<Fault>,
    /// The numbers of the functions that are taken for types.
    pub types: Vec<usize>,
    /// Whether the analysis reached its limit of work, so that it says nothing of the rest.
    pub gave_up: bool,
}

/// What is the same whenever a step begins: the value of each variable, if it is known.
type Constants = Vec<Option<Value>>;

impl<'a> Checker<'a> {
    pub fn new(
        alloc: Global,
        style: &'a Style,
        program: &'a Program,
        work: u64,
    ) -> Result<Checker<'a>, AllocError> {
        Ok(Checker {
            alloc,
            style,
            program,
            values: Values::new(alloc, program.empty_text(), work)?,
            types: Vec::new(alloc),
            faults: Vec::new(alloc),
            is_quiet: false,
            quiet_count: 0,
            is_like_helper: false,
            calls: Vec::new(alloc),
            step: Step {
                function: None,
                line: 0,
                is_of_entries: false,
                entry_type: None,
            },
            watch: Watch::nothing(alloc),
        })
    }

    /// The variable of a place.
    fn variable_at(&self, place: usize) -> Target {
        let texts = self.style.entry_numbers.len();
        let globals = texts.saturating_add(self.style.entry_texts.len());
        let global_texts = globals.saturating_add(self.style.global_numbers.len());
        if place < texts {
            Target::EntryNumber(place)
        } else if place < globals {
            Target::EntryText(place.saturating_sub(texts))
        } else if place < global_texts {
            Target::GlobalNumber(place.saturating_sub(globals))
        } else {
            Target::GlobalText(place.saturating_sub(global_texts))
        }
    }

    /// The constants before the first step: all global variables but the two limits are 0 or empty.
    fn first_constants(&self) -> Result<Constants, AllocError> {
        let mut constants = Vec::new(self.alloc);
        for place in 0..self.variable_count() {
            constants.push(match self.variable_at(place) {
                Target::GlobalNumber(place) if place > 1 => Some(ZERO),
                Target::GlobalText(_) => Some(EMPTY),
                _ => None,
            })?;
        }
        Ok(constants)
    }

    fn first_variables(&mut self, constants: &[Option<Value>]) -> Result<Vec<Value>, AllocError> {
        let mut variables = Vec::new(self.alloc);
        for place in 0..self.variable_count() {
            let value = match (
                constants.get(place).copied().unwrap_or(None),
                self.variable(self.variable_at(place)),
            ) {
                (Some(value), _) => value,
                (None, Some((place, kinds))) => self
                    .values
                    .make(Node::Held { place, kinds }, false)?,
                (None, None) => ZERO,
            };
            variables.push(value)?;
        }
        Ok(variables)
    }

    pub fn first_state(&mut self, constants: &[Option<Value>]) -> Result<State, AllocError> {
        let variables = self.first_variables(constants)?;
        let facts = self.first_facts()?;
        Ok(State {
            stack: Vec::new(self.alloc),
            variables,
            facts,
        })
    }

    /// What is known as the step begins: what `type$` is. An entry that runs `default.type` has an unknown type.
    fn first_facts(&mut self) -> Result<Facts, AllocError> {
        let mut facts = Facts::new(self.alloc);
        if let Some(function) = self.step.entry_type {
            let kind = self.values.plain(Builtin::Type, ZERO, ZERO, ZERO)?;
            let name = if self.program.default_type == Some(function) {
                EMPTY
            } else {
                self.values.text(function, true)?
            };
            let mut known = facts.of(kind);
            known.only = Some(name);
            facts.put(kind, known)?;
        }
        Ok(facts)
    }

    fn told_function(&self) -> Option<usize> {
        match self.step.entry_type {
            Some(function) => Some(function),
            None => self.step.function,
        }
    }

    fn tell_left(&mut self, state: &State) -> Result<(), AllocError> {
        let Some(top) = state.stack.last().copied() else {
            return Ok(());
        };
        self.calls.clear();
        if let Some(function) = self.told_function() {
            let line = self.program.lines.get(function).copied().unwrap_or(0);
            self.calls.push(Call { function, line })?;
        }
        let kinds = self.values.kinds(&state.facts, top)?;
        let words = kinds_words(self.alloc, kinds, b"")?;
        self.tell(
            FaultKind::Left,
            None,
            &[
                b"the step leaves something on the stack (top: ",
                words.as_slice(),
                b")",
            ],
            &state.facts,
        )
    }

    fn run_step(
        &mut self,
        step: Step,
        target: Target,
        constants: &[Option<Value>],
    ) -> Result<Vec<State>, AllocError> {
        self.step = step;
        self.calls.clear();
        let state = self.first_state(constants)?;
        let mut ends = Vec::new(self.alloc);
        self.call(target, state, &mut ends, DEPTH)?;
        for end in &ends {
            self.tell_left(end)?;
        }
        Ok(ends)
    }

    pub fn is_clean(&mut self, function: usize) -> Result<bool, AllocError> {
        self.is_quiet = true;
        self.quiet_count = 0;
        self.is_like_helper = false;
        let step = Step {
            function: Some(function),
            line: 0,
            is_of_entries: true,
            entry_type: None,
        };
        let _ = self.run_step(step, Target::Function(function), &[])?;
        self.is_quiet = false;
        Ok(self.quiet_count == 0)
    }

    /// After a step that runs once, the variables that hold the same constant however it ends.
    fn learn_constants(&self, constants: &mut Constants, ends: &[State]) {
        let Some(first) = ends.first() else {
            return;
        };
        for (place, constant) in constants.iter_mut().enumerate() {
            let value = first.variables.get(place).copied();
            let is_same = ends
                .iter()
                .all(|end| end.variables.get(place).copied() == value);
            *constant = match value {
                Some(value) if is_same && self.is_constant(value) => Some(value),
                _ => None,
            };
        }
    }

    fn is_constant(&self, value: Value) -> bool {
        matches!(self.values.node(value), Node::Integer(_) | Node::Text(_))
    }

    fn forget(
        &self,
        constants: &mut Constants,
        catalogue: &Catalogue,
        target: Target,
    ) -> Result<(), AllocError> {
        for function in self.reached(catalogue, target)? {
            for word in all_words(self.alloc, self.program, function)? {
                if let Act::Quote(target) = word.act {
                    if let Some((place, _)) = self.variable(target) {
                        if let Some(constant) = constants.get_mut(place) {
                            *constant = None;
                        }
                    }
                }
            }
        }
        Ok(())
    }

    fn run_types(
        &mut self,
        line: usize,
        target: Target,
        constants: &[Option<Value>],
    ) -> Result<(), AllocError> {
        let mut types = Vec::new(self.alloc);
        self.add_types(&mut types)?;
        for function in types {
            let step = Step {
                function: None,
                line,
                is_of_entries: true,
                entry_type: Some(function),
            };
            let _ = self.run_step(step, target, constants)?;
        }
        Ok(())
    }

    fn run_entries(
        &mut self,
        line: usize,
        target: Target,
        constants: &mut Constants,
        catalogue: &Catalogue,
    ) -> Result<(), AllocError> {
        self.forget(constants, catalogue, target)?;
        if target == Target::Builtin(Builtin::CallType) {
            return self.run_types(line, target, constants.as_slice());
        }
        let step = Step {
            function: function_of(target),
            line,
            is_of_entries: true,
            entry_type: None,
        };
        let _ = self.run_step(step, target, constants.as_slice())?;
        Ok(())
    }

    fn run_command(
        &mut self,
        command: Command,
        constants: &mut Constants,
        catalogue: &Catalogue,
    ) -> Result<(), AllocError> {
        match command.action {
            Action::Execute(target) => {
                let step = Step {
                    function: function_of(target),
                    line: command.line,
                    is_of_entries: false,
                    entry_type: None,
                };
                let ends = self.run_step(step, target, constants.as_slice())?;
                self.learn_constants(constants, ends.as_slice());
                Ok(())
            }
            Action::Iterate(target) | Action::Reverse(target) => {
                self.run_entries(command.line, target, constants, catalogue)
            }
            _ => Ok(()),
        }
    }

    fn run_commands(&mut self, catalogue: &Catalogue) -> Result<(), AllocError> {
        let style: &'a Style = self.style;
        let mut constants = self.first_constants()?;
        for command in style.commands.as_slice() {
            self.run_command(*command, &mut constants, catalogue)?;
        }
        Ok(())
    }

    fn run_style(&mut self, catalogue: &Catalogue) -> Result<(), AllocError> {
        self.find_types(catalogue)?;
        self.run_commands(catalogue)
    }

    fn into_findings(self) -> Findings {
        let Checker {
            values,
            faults,
            types,
            ..
        } = self;
        Findings {
            gave_up: values.work == 0,
            faults,
            types,
        }
    }
}

fn function_of(target: Target) -> Option<usize> {
    match target {
        Target::Function(function) => Some(function),
        _ => None,
    }
}

fn check_program(
    alloc: Global,
    style: &Style,
    program: &Program,
    catalogue: &Catalogue,
    work: u64,
) -> Result<Findings, AllocError> {
    let mut checker = Checker::new(alloc, style, program, work)?;
    checker.run_style(catalogue)?;
    Ok(checker.into_findings())
}

/// Checks a style that this text spells, in at most this many steps of analysis. The one error is out of memory.
pub fn check(alloc: Global, style: &Style, text: &[u8], work: u64) -> Result<Findings, AllocError> {
    let program = Program::of(alloc, style, text)?;
    let catalogue = Catalogue::of(alloc, style, &program)?;
    check_program(alloc, style, &program, &catalogue, work)
}
