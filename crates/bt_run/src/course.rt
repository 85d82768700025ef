//! How far a run has come: the world of all entries in the program's form, and the log; and what a step is.

ghost use Rattle.std.specs.Prelude.{◌≡◌, IfOk};
ghost use Rattle.bt_run.specs.inner.Work.{step_now};

use crate::step::key_of;
use bt_actions::{Entry, Variables};
use bt_log::Message;
use bt_machine::{Input, Outcome};
use bt_text::{Bytes, Held, Sequence, Shared};
use std::alloc::AllocError;

/// A step of a run: which command ran it, for which entry, what it was given and left, and its cost in ticks.
#[derive(Drop)]
pub struct Step {
    /// The number of its command in the style, from 0.
    pub command: usize,
    /// The key of its entry, if it has one.
    pub key: Option<Shared<Bytes>>,
    pub input: Input,
    pub outcome: Outcome,
    /// The ticks that it took.
    pub cost: u128,
}

impl Step {
    /// The step of a command with this input, outcome and cost.
    pub fn of(
        command: usize,
        input: Input,
        outcome: Outcome,
        cost: u128,
    ) -> Result<Step, AllocError>
        ensures { IfOk result (λ step. step ≡ step_now command input outcome cost) }
    {
        let key = key_of(&input)?;
        Ok(Step {
            command,
            key,
            input,
            outcome,
            cost,
        })
    }
}

/// How far a run has come.
#[derive(Drop)]
pub struct Course {
    /// The entries, in the order of the list.
    pub entries: Sequence<Entry>,
    /// The places of the entries, in the present order.
    pub order: Sequence<usize>,
    pub globals: Shared<Variables>,
    /// The preambles of all databases, joined.
    pub preamble: Shared<Bytes>,
    /// The line that `write$` appends to.
    pub held: Held,
    pub log: Sequence<Message>,
    /// Whether a step stopped the run.
    pub stopped: bool,
}

/// The command that runs a step.
#[derive(Drop)]
pub struct CommandPlace {
    /// The name of the style's file.
    pub style: Shared<Bytes>,
    /// The number of the command in the style, from 0.
    pub command: usize,
    /// The line of the command's word.
    pub line: usize,
}
