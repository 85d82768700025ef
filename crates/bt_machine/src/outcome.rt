//! What a step leaves.

use bt_actions::Variables;
use bt_log::Message;
use bt_style::BUILTIN_COUNT;
use bt_text::{Bytes, Held, Sequence, Shared};

/// What a step leaves.
#[derive(Debug, Drop)]
pub struct Outcome {
    /// The values of the global variables after the step.
    pub globals: Shared<Variables>,
    /// The variables of the step's entry after the step, if it is for an entry.
    pub variables: Option<Shared<Variables>>,
    /// The output buffer after the step.
    pub held: Held,
    /// The lines that the step ended, in their order.
    pub lines: Sequence<Shared<Bytes>>,
    /// The messages that the step logged, in their order.
    pub messages: Sequence<Message>,
    /// Whether the step ended the run, because it passed a limit.
    pub stop: bool,
    /// How often each built-in function was called, by its place in the table.
    pub calls: [u32; BUILTIN_COUNT],
}

/// What a step leaves, but for its lines and its counts of calls. Three quarters of an outcome are counts, and they would
/// be copied with it.
#[derive(Drop)]
pub struct StepEnd {
    /// The values of the global variables after the step.
    pub globals: Shared<Variables>,
    /// The variables of the step's entry after the step, if it is for an entry.
    pub variables: Option<Shared<Variables>>,
    /// The output buffer after the step.
    pub held: Held,
    /// The messages that the step logged, in their order.
    pub messages: Sequence<Message>,
    /// Whether the step ended the run, because it passed a limit.
    pub stop: bool,
}

impl StepEnd {
    ghost use Rattle.std.specs.Prelude.{◌≡◌};
    ghost use Rattle.bt_machine.specs.Step.{outcome_with};

    /// The outcome with these lines and counts.
    pub fn into_outcome(
        self,
        lines: Sequence<Shared<Bytes>>,
        calls: [u32; BUILTIN_COUNT],
    ) -> Outcome
        ensures { result ≡ outcome_with self lines calls }
    {
        let StepEnd {
            globals,
            variables,
            held,
            messages,
            stop,
        } = self;
        Outcome {
            globals,
            variables,
            held,
            lines,
            messages,
            stop,
            calls,
        }
    }
}
