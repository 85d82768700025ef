//! What a step is given.

use bt_actions::{Entry, Variables};
use bt_style::Target;
use bt_text::{Bytes, Held, Shared};
use std::marker::Model;

/// What a step is given.
#[derive(Debug, Drop)]
pub struct Input {
    /// The name that is called.
    pub target: Target,
    /// The entry that the step is for, or none.
    pub entry: Option<Entry>,
    /// The values of the global variables: those of `INTEGERS`, `entry.max$` and `global.max$`, and those of `STRINGS`.
    pub globals: Shared<Variables>,
    /// The output buffer: the beginning of an output line that hasn't ended.
    pub held: Held,
    /// The preambles of the databases, one after another.
    pub preamble: Shared<Bytes>,
}

impl Input {
    ghost use Rattle.std.specs.Prelude.{◌≡◌};
    ghost use Rattle.bt_machine.specs.Step.{function_of};

    /// The same input, lent.
    pub fn lend(&self) -> LentInput<'_>
        ensures { result ≡ self.now }
    {
        LentInput {
            target: self.target,
            entry: self.entry.as_ref(),
            globals: &self.globals,
            held: &self.held,
            preamble: &self.preamble,
        }
    }

    /// The function of the type of the entry, if there is one.
    pub fn type_function(&self) -> Option<usize>
        ensures { result ≡ function_of self.now.entry }
    {
        match &self.entry {
            None => None,
            Some(entry) => entry.function,
        }
    }
}

/// What a step is given, lent by its owners. Contracts see the input.
#[derive(Drop)]
pub struct LentInput<'a> {
    pub target: Target,
    pub entry: Option<&'a Entry>,
    pub globals: &'a Shared<Variables>,
    pub held: &'a Held,
    pub preamble: &'a Shared<Bytes>,
}

impl<'a> Model for LentInput<'a> {
    ghost use Rattle.std.specs.Prelude.{option_copied};
    ghost use Rattle.bt_machine.specs.declared.input.Input.{Input};

    ghost Value = { Input };

    ghost view = { λ input. record {
      target = input.target;
      entry = option_copied input.entry;
      globals = input.globals.now;
      held = input.held.now;
      preamble = input.preamble.now;
    } };
}
