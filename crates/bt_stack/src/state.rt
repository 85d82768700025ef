//! What a step works on, and how it reports what goes wrong.

use crate::stack::Stack;
use crate::value::Value;
use bt_actions::{Complaint, Entry, Flow, STACK_LIMIT};
use bt_names::SoundPatterns;
use bt_style::{Builtin, Op, Target};
use bt_text::{Bytes, Held, Sequence, TEXT_BYTES};
use std::alloc::AllocError;

/// A step's own part of the world.
#[derive(Drop)]
pub struct State<'a> {
    pub stack: Stack<'a>,
    /// The entry that the step is for. Its variables are the stack's.
    pub entry: Option<&'a Entry>,
    pub preamble: &'a [u8],
    /// Patterns of `format.name$` that are known to have no fault.
    pub patterns: &'a SoundPatterns,
    pub held: Held,
    pub lines: Sequence<Bytes>,
    pub complaints: Sequence<Complaint>,
}

impl<'a> State<'a> {
    ghost use Rattle.std.specs.Prelude.{◌≡◌, IfOk, OnOk};
    ghost use Rattle.bt_style.specs.Tree.{ops_body};
    ghost use Rattle.bt_actions.specs.Item.{Num, Txt, Fun, Missing, Name, Block};
    ghost use Rattle.bt_actions.specs.World.{Stops, say};
    ghost use Rattle.bt_actions.specs.State.{popped, pushed, limit_passed};
    ghost use Rattle.bt_actions.specs.Arguments.{judged};
    ghost use Rattle.bt_actions.specs.declared.complaint.Complaint.TheVariants.{EmptyStack, StackPassed};
    ghost use Rattle.bt_stack.specs.View.{world_of, Acts};

    /// Adds a complaint.
    #[cold]
    #[tactic(auto, using(crate::proofs::TellLemmas::key_told))]
    pub fn tell(&mut self, complaint: Complaint) -> Result<(), AllocError>
        ensures { OnOk result (world_of self.new ≡ say complaint (world_of self.old)) }
    {
        self.complaints.push(complaint)?;
        Ok(())
    }

    /// Reports a limit that was passed, and stops the run.
    #[cold]
    pub fn stop(&mut self, limit: Complaint) -> Result<Flow, AllocError>
        ensures { IfOk result (Acts (λ world. Stops (say limit world)) self.old self.new) }
    {
        self.tell(limit)?;
        Ok(Flow::Stop)
    }

    /// Reports that the stack has too few values. Callers that made the complaint themselves would set its bytes to 0 at
    /// each call.
    #[cold]
    pub fn tell_empty(&mut self) -> Result<(), AllocError>
        ensures { OnOk result (world_of self.new ≡ say EmptyStack (world_of self.old)) }
    {
        self.tell(Complaint::EmptyStack)
    }

    /// Removes the topmost value, or reports that there is none.
    pub fn drop_top(&mut self) -> Result<(), AllocError>
        ensures { OnOk result (world_of self.new ≡ (popped (world_of self.old)).1) }
    {
        if self.stack.len() == 0 {
            self.tell_empty()
        } else {
            self.stack.drop_tops(1);
            Ok(())
        }
    }

    /// Reports that the stack is full, and stops the run.
    #[cold]
    fn pass_stack_limit(&mut self) -> Result<Flow, AllocError>
        ensures { IfOk result (Acts (λ world. Stops (say StackPassed world)) self.old self.new) }
    {
        self.stop(Complaint::StackPassed)
    }

    /// Reports that a text is too long for the stack, or that the stack is full, and stops the run.
    #[cold]
    pub fn pass_text_limit(&mut self) -> Result<Flow, AllocError>
        ensures { IfOk result (Acts limit_passed self.old self.new) }
    {
        if self.stack.len() < STACK_LIMIT {
            self.stop(Complaint::TextPassed)
        } else {
            self.stop(Complaint::StackPassed)
        }
    }

    /// Pushes a number, unless the stack is full.
    pub fn push_number(&mut self, number: i32) -> Result<Flow, AllocError>
        ensures { IfOk result (Acts (pushed (Num number)) self.old self.new) }
    {
        if self.stack.len() < STACK_LIMIT {
            self.stack.push(Value::Number(number))?;
            Ok(Flow::Go)
        } else {
            self.pass_stack_limit()
        }
    }

    /// Pushes a text that outlives the stack, unless that would pass a limit.
    pub fn push_given(&mut self, text: &'a [u8]) -> Result<Flow, AllocError>
        ensures { IfOk result (Acts (pushed (Txt text.now)) self.old self.new) }
    {
        if self.stack.len() >= STACK_LIMIT || text.len() > TEXT_BYTES {
            return self.pass_text_limit();
        }
        self.stack.push(Value::Given(text))?;
        Ok(Flow::Go)
    }

    /// Pushes a quoted name, unless the stack is full.
    pub fn push_name(&mut self, name: Target) -> Result<Flow, AllocError>
        ensures { IfOk result (Acts (pushed (Fun (Name name))) self.old self.new) }
    {
        if self.stack.len() < STACK_LIMIT {
            self.stack.push(Value::Name(name))?;
            Ok(Flow::Go)
        } else {
            self.pass_stack_limit()
        }
    }

    /// Pushes a function in braces, unless the stack is full.
    pub fn push_block(&mut self, ops: &'a [Op]) -> Result<Flow, AllocError>
        ensures { IfOk result (Acts (pushed (Fun (Block (ops_body ops.now)))) self.old self.new) }
    {
        if self.stack.len() < STACK_LIMIT {
            self.stack.push(Value::Block(ops))?;
            Ok(Flow::Go)
        } else {
            self.pass_stack_limit()
        }
    }

    /// Pushes a missing field, unless the stack is full.
    pub fn push_missing(&mut self, field: usize) -> Result<Flow, AllocError>
        ensures { IfOk result (Acts (pushed (Missing field)) self.old self.new) }
    {
        if self.stack.len() < STACK_LIMIT {
            self.stack.push(Value::Missing(field))?;
            Ok(Flow::Go)
        } else {
            self.pass_stack_limit()
        }
    }

    /// Removes two arguments that can't be used, and reports why.
    #[cold]
    pub fn refuse_two(&mut self, builtin: Builtin, wrong: bool) -> Result<(), AllocError>
        ensures { OnOk result (world_of self.new ≡ judged builtin wrong (popped (popped (world_of self.old)).1).1) }
    {
        self.drop_top()?;
        self.drop_top()?;
        self.judge(builtin, wrong)
    }

    /// Removes three arguments that can't be used, and reports why.
    #[cold]
    pub fn refuse_three(&mut self, builtin: Builtin, wrong: bool) -> Result<(), AllocError>
        ensures { OnOk result (world_of self.new
            ≡ judged builtin wrong (popped (popped (popped (world_of self.old)).1).1).1) }
    {
        self.drop_top()?;
        self.drop_top()?;
        self.drop_top()?;
        self.judge(builtin, wrong)
    }

    /// Removes an argument that can't be used, and reports why.
    #[cold]
    pub fn refuse_one(&mut self, builtin: Builtin, wrong: bool) -> Result<(), AllocError>
        ensures { OnOk result (world_of self.new ≡ judged builtin wrong (popped (world_of self.old)).1) }
    {
        self.drop_top()?;
        self.judge(builtin, wrong)
    }

    /// Reports an argument of the wrong kind, if there was one.
    fn judge(&mut self, builtin: Builtin, wrong: bool) -> Result<(), AllocError>
        ensures { OnOk result (world_of self.new ≡ judged builtin wrong (world_of self.old)) }
    {
        if wrong {
            self.tell(Complaint::WrongKind(builtin))
        } else {
            Ok(())
        }
    }
}
