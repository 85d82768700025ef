//! How a step begins: with an empty stack, beside what its input has.

ghost use Rattle.std.specs.Prelude.{◌≡◌, option_copied};
ghost use Rattle.bt_stack.specs.View.{own_begun};

use crate::buffers::StepBuffers;
use crate::stack::Stack;
use crate::state::State;
use bt_actions::{Entry, Variables};
use bt_names::SoundPatterns;
use bt_text::{Held, Sequence, Shared};
use std::alloc::{AllocError, Global};

/// The variables that stand for those of a step's entry. Without an entry they are never used.
fn own_begun<'a>(entry: Option<&'a Entry>, globals: &'a Shared<Variables>) -> &'a Shared<Variables>
    ensures { result.now ≡ own_begun (option_copied entry.entry) globals.now }
{
    match entry {
        None => globals,
        Some(entry) => &entry.variables,
    }
}

/// What a state borrows: the step's entry, globals and preamble, and patterns that are known to be sound.
#[derive(Clone, Copy)]
pub struct StateInput<'a> {
    pub entry: Option<&'a Entry>,
    pub globals: &'a Shared<Variables>,
    pub preamble: &'a [u8],
    /// Patterns of `format.name$` that are known to have no fault.
    pub patterns: &'a SoundPatterns,
}

impl<'a> State<'a> {
    ghost use Rattle.std.specs.Prelude.{◌≡◌, option_copied, OnOk};
    ghost use Rattle.bt_stack.specs.View.{world_of, world_begun};

    /// The state before a step for an entry or for none, with the variables of the style. It holds no line, and has no memory
    /// beside the buffers yet. A result that might be out of memory would be copied, with all of the state, at each step.
    pub fn begin(alloc: Global, buffers: &mut StepBuffers, input: StateInput<'a>) -> State<'a>
        ensures { world_of result
            ≡ world_begun (option_copied input.entry.entry) input.entry.globals.now input.entry.preamble.now }
    {
        let StateInput {
            entry,
            globals,
            preamble,
            patterns,
        } = input;
        let own = own_begun(entry, globals);
        State {
            stack: Stack::new(alloc, buffers, globals, own),
            entry,
            preamble,
            patterns,
            held: Held::new(alloc),
            lines: Sequence::new(alloc),
            complaints: Sequence::new(alloc),
        }
    }

    /// Holds a copy of a line, and makes room on the stack for the values and texts of most steps.
    pub fn make_room(&mut self, alloc: Global, held: &Held) -> Result<(), AllocError>
        ensures { OnOk result (world_of self.new ≡ record (world_of self.old) { held = held.now }) }
    {
        self.held = held.copy(alloc)?;
        self.stack.make_room()
    }
}
