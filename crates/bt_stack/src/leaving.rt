//! What a step leaves: its variables, what it wrote, and its messages.

ghost use Rattle.std.specs.Prelude.{◌≡◌};

use crate::state::State;
use crate::variables_left::VariablesLeft;
use bt_actions::messages;
use bt_log::Message;
use bt_text::{Bytes, Held, Sequence};
use std::alloc::{AllocError, Global};
use std::mem;

/// The line that is held at a step's end. If nothing is held, it has no memory.
fn trimmed(alloc: Global, held: Held) -> Held
    ensures { result ≡ held }
{
    if held.bytes().is_empty() {
        Held::new(alloc)
    } else {
        held
    }
}

/// The part of a step's state that outlives the step.
#[derive(Drop)]
pub struct Left {
    pub variables: VariablesLeft,
    pub held: Held,
    pub lines: Sequence<Bytes>,
    pub messages: Sequence<Message>,
}

impl<'a> State<'a> {
    ghost use Rattle.std.specs.Prelude.{◌≡◌, IfOk};
    ghost use Rattle.bt_stack.specs.View.{world_of, own_variables, left_of};

    /// The messages of all complaints, in their order.
    fn messages(&self, alloc: Global) -> Result<Sequence<Message>, AllocError>
        ensures { IfOk result (λ messages. messages ≡ (world_of self.now).messages) }
    {
        let key = match self.entry {
            None => None,
            Some(entry) => Some(&entry.key),
        };
        messages(alloc, self.complaints.as_slice(), key)
    }

    /// The variables as they are now; those of the entry, if there is one.
    fn variables_left(&mut self, alloc: Global) -> Result<VariablesLeft, AllocError>
        ensures left { IfOk result (λ left.
            left ≡ ((world_of self.old).globals, own_variables (world_of self.old))) }
        ensures held { self.new.held ≡ self.old.held }
        ensures lines { self.new.lines ≡ self.old.lines }
    {
        match self.entry {
            None => self.stack.variables_left(alloc, false),
            Some(_) => self.stack.variables_left(alloc, true),
        }
    }

    /// What was written. This leaves nothing that is written or held.
    fn take_output(&mut self, alloc: Global) -> (Held, Sequence<Bytes>)
        ensures held { result.0 ≡ self.old.held }
        ensures lines { result.1 ≡ self.old.lines }
    {
        let held = mem::replace(&mut self.held, Held::new(alloc));
        let lines = mem::replace(&mut self.lines, Sequence::new(alloc));
        (held, lines)
    }

    /// What the step leaves. Its variables take the pool with them; only the words of its messages are copied. The state is
    /// of no use after this. The only error is out of memory.
    #[inline(never)]
    pub fn leave(&mut self, alloc: Global) -> Result<Left, AllocError>
        ensures { IfOk result (λ left. left ≡ left_of (world_of self.old)) }
    {
        let messages = self.messages(alloc)?;
        let variables = self.variables_left(alloc)?;
        let (held, lines) = self.take_output(alloc);
        Ok(Left {
            variables,
            held: trimmed(alloc, held),
            lines,
            messages,
        })
    }
}
