//! The steps of a style's commands.

ghost use Rattle.std.specs.Prelude.{◌≡◌, IfOk, IsTrue, true, false};
ghost use Rattle.std.specs.List.{list_all};
ghost use Rattle.bt_style.specs.Program.{program_of};
ghost use Rattle.bt_sound.specs.Checked.{IsChecked, IsCheckedOften, before_step, unknown_entry};
ghost use Rattle.bt_sound.specs.Follows.{CommandLeads, CommandsLead, StepLeads, is_bare};
ghost use Rattle.bt_sound.specs.Seen.{state_seen, states_seen};
ghost use Rattle.bt_sound.specs.Sound.{Promises};

use crate::following::{DEPTH, Follower};
use crate::globals::{
    Globals, are_globals_within, globals_of, is_kept, start, unknown_variables, widened,
};
use crate::may::May;
use crate::state::{KnownEntry, KnownVariables, State};
use crate::stop::Stop;
use bt_style::{Action, Command, Style, Target};
use bt_text::{Sequence, Shared};
use std::alloc::{AllocError, Global};

/// How many fields, or variables of a kind, a style may have here: lists of them are gone over by recursion.
const MOST_NAMES: usize = 1000;

/// How often the steps of ITERATE or REVERSE are followed until they leave what is known of the global variables before
/// them. Each round widens what is known of some variable, and real styles need two or three.
const MOST_ROUNDS: usize = 20;

fn unknown_entry(alloc: Global, style: &Style) -> Result<KnownEntry, AllocError>
    ensures { IfOk result (λ entry. entry ≡ unknown_entry (program_of style.now)) }
{
    let fields = vec![in alloc; May::any_field(); style.fields.len()]?;
    let variables = unknown_variables(alloc, &style.entry_numbers, &style.entry_texts)?;
    Ok(KnownEntry {
        fields: Sequence::from_vec(fields),
        variables,
    })
}

fn before_execute<'a>(
    alloc: Global,
    style: &Style,
    globals: &KnownVariables,
) -> Result<State<'a>, AllocError>
    ensures { IfOk result (λ state. state_seen state ≡ before_step (program_of style.now) false globals.now) }
{
    let globals = globals.copied(alloc)?;
    let globals = Shared::new(alloc, globals)?;
    Ok(State {
        stack: Vec::new(alloc),
        entry: None,
        globals,
    })
}

fn before_iterate<'a>(
    alloc: Global,
    style: &Style,
    globals: &KnownVariables,
) -> Result<State<'a>, AllocError>
    ensures { IfOk result (λ state. state_seen state ≡ before_step (program_of style.now) true globals.now) }
{
    let globals = globals.copied(alloc)?;
    let globals = Shared::new(alloc, globals)?;
    let entry = unknown_entry(alloc, style)?;
    let entry = Shared::new(alloc, entry)?;
    Ok(State {
        stack: Vec::new(alloc),
        entry: Some(entry),
        globals,
    })
}

fn is_bare(state: &State) -> bool
    ensures { result ≡ is_bare (state_seen state.now) }
{
    match state.stack.as_slice() {
        [] => true,
        [_, ..] => false,
    }
}

/// Whether all that was put on the stacks was taken.
fn are_bare(states: &[State]) -> bool
    ensures { result ≡ list_all (λ s. is_bare (state_seen s)) states.now }
{
    states.iter().all(|state| is_bare(state))
}

impl<'a> Follower<'a> {
    /// Follows the call of a name from this state, and refuses it if it leaves something on the stack.
    fn step(&self, work: &mut u64, before: State<'a>, name: Target) -> Result<Vec<State<'a>>, Stop>
        ensures { IfOk result (λ after. StepLeads (program_of self.now.style.now) self.now.types.now (state_seen before.entry)
            name (states_seen after.items)) }
    {
        let mut states = Vec::new(self.alloc);
        states.push(before)?;
        let after = self.call(work, name, states, DEPTH)?;
        if are_bare(after.as_slice()) {
            Ok(after)
        } else {
            Err(Stop::Refused)
        }
    }

    /// What is kept of the global variables after a step without an entry.
    fn kept(
        &self,
        globals: &KnownVariables,
        states: &[State<'a>],
    ) -> Result<KnownVariables, AllocError> {
        match self.globals {
            Globals::Forgotten => globals.copied(self.alloc),
            Globals::Tracked => match globals_of(self.alloc, states)? {
                Some(after) => Ok(after),
                None => globals.copied(self.alloc),
            },
        }
    }

    /// Follows the step of EXECUTE: what is known of the global variables after it.
    fn execute(
        &self,
        work: &mut u64,
        name: Target,
        globals: &KnownVariables,
    ) -> Result<KnownVariables, Stop>
        ensures { IfOk result (λ after. IsChecked (program_of self.now.style.now) self.now.types.now false name globals.now after) }
    {
        let before = before_execute(self.alloc, self.style, globals)?;
        let states = self.step(work, before, name)?;
        let after = self.kept(globals, states.as_slice())?;
        if are_globals_within(states.as_slice(), &after) {
            Ok(after)
        } else {
            Err(Stop::Refused)
        }
    }

    /// Follows the steps of ITERATE and REVERSE, any number: what is known of the global variables before and after each.
    fn iterate(
        &self,
        work: &mut u64,
        name: Target,
        globals: &KnownVariables,
    ) -> Result<KnownVariables, Stop>
        ensures { IfOk result (λ after. IsCheckedOften (program_of self.now.style.now) self.now.types.now name globals.now after) }
    {
        let mut now = globals.copied(self.alloc)?;
        'rounds: for _ in 0..MOST_ROUNDS {
            let before = before_iterate(self.alloc, self.style, &now)?;
            let states = self.step(work, before, name)?;
            if is_kept(globals, states.as_slice(), &now) {
                return Ok(now);
            }
            now = widened(self.alloc, &now, states.as_slice())?;
        }
        Err(Stop::Refused)
    }

    /// Follows the steps of a command: what is known of the global variables after them.
    fn command(
        &self,
        work: &mut u64,
        command: &Command,
        globals: KnownVariables,
    ) -> Result<KnownVariables, Stop>
        ensures { IfOk result (λ after. CommandLeads (program_of self.now.style.now) self.now.types.now command.now.action globals after) }
    {
        match command.action {
            Action::Execute(name) => {
                let after = self.execute(work, name, &globals)?;
                Ok(after)
            }
            Action::Iterate(name) => {
                let after = self.iterate(work, name, &globals)?;
                Ok(after)
            }
            Action::Reverse(name) => {
                let after = self.iterate(work, name, &globals)?;
                Ok(after)
            }
            _ => Ok(globals),
        }
    }

    fn commands(&self, work: &mut u64, start: KnownVariables) -> Result<(), Stop>
        ensures { IfOk result (λ _. CommandsLead (program_of self.now.style.now) self.now.types.now self.now.style.now.commands start) }
    {
        let mut globals = start;
        'commands: for command in self.style.commands.as_slice() {
            globals = self.command(work, command, globals)?;
        }
        Ok(())
    }
}

impl Follower<'_> {
    /// Whether the style may be accepted: no run of it gives an excluded message before an overflow, if each entry's type
    /// is one of its types, or none. Any answer is right with any `apart` and `globals`, but some styles are accepted only
    /// with the right ones.
    ///
    /// `work` is how many elements may be followed, each from one state; comparing 32 pairs of states counts as much. What
    /// is left of it afterwards stays in it. If it isn't enough, the style isn't accepted.
    pub fn accepts(&self, work: &mut u64) -> Result<bool, AllocError>
        ensures { IfOk result (λ yes. IsTrue yes → Promises (program_of self.now.style.now) self.now.types.now) }
    {
        if self.style.fields.len() > MOST_NAMES || !has_few_variables(self.style) {
            return Ok(false);
        }
        let Some(start) = start(self.alloc, self.style, self.globals)? else {
            return Ok(false);
        };
        match self.commands(work, start) {
            Ok(()) => Ok(true),
            Err(Stop::Refused) => Ok(false),
            Err(Stop::OutOfMemory) => Err(AllocError),
        }
    }
}

fn has_few_variables(style: &Style) -> bool {
    style.entry_numbers.len() <= MOST_NAMES
        && style.entry_texts.len() <= MOST_NAMES
        && style.global_numbers.len() <= MOST_NAMES
        && style.global_texts.len() <= MOST_NAMES
}
