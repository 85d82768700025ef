//! What a walk is given: the old run, and the changed entry.

ghost use Rattle.std.specs.Prelude.{◌≡◌, ◌<◌, All, IfSome, IsTrue, Some, length, slice_get};
ghost use Rattle.bt_style.specs.Program.{program_of};
ghost use Rattle.bt_run.specs.declared.course.Step.{Step as StepSeen};
ghost use Rattle.bt_run.specs.Work.{IsStep};
ghost use Rattle.bt_run.specs.inner.Beside.{HasKey, is_for};
ghost use Rattle.bt_run.specs.inner.WalkContext.{AreReadless, IsOnlyRead, LastGoes, is_read};

use crate::kept::Kept;
use bt_actions::Entry;
use bt_style::{Action, Command, Style};
use std::alloc::Global;

/// The old run under this style, and the entry that READ finds changed.
#[derive(Clone, Copy)]
pub struct WalkContext<'a> {
    pub alloc: Global,
    pub style: &'a Style,
    pub earlier: &'a Kept,
    /// The number of READ among the commands.
    pub read: usize,
    /// The changed entry's place, and its key.
    pub place: usize,
    pub key: &'a [u8],
    /// The changed entry as READ finds it.
    pub first: &'a Entry,
    ghost steps: { All (IsStep (program_of style.now)) earlier.now.steps },
    ghost keyed: { HasKey place key.now earlier.now.entries },
    ghost within: { place < length earlier.now.entries },
}

pub fn is_read(command: &Command) -> bool
    ensures { result ≡ is_read command.now.action }
{
    matches!(command.action, Action::Read)
}

fn are_readless(commands: &[Command]) -> bool
    ensures { IsTrue result → AreReadless commands.now }
{
    'commands: for number in 0..commands.len() {
        if is_read(&commands[number]) {
            return false;
        }
    }
    true
}

/// The number of READ among the commands of a style, if it is there once.
pub fn read_number(commands: &[Command]) -> Option<usize>
    ensures { IfSome result (λ number. IsOnlyRead number commands.now) }
{
    'commands: for number in 0..commands.len() {
        if is_read(&commands[number]) {
            if are_readless(&commands[number + 1..]) {
                return Some(number);
            }
            return None;
        }
    }
    None
}

impl WalkContext<'_> {
    /// Whether the step of a number is for the changed entry, if that is known.
    pub fn is_own(self, number: usize) -> Option<bool>
        requires { number < length self.earlier.now.steps }
        ensures { IfSome result (λ own. (s : StepSeen) → slice_get self.entry.earlier.now.steps number ≡ Some s →
            is_for self.entry.key.now s ≡ own) }
    {
        let mark = self.earlier.marks.as_slice().get(number)?;
        let Some(place) = mark.place else {
            if self.earlier.steps.as_slice()[number].key.is_some() {
                return None;
            }
            return Some(false);
        };
        if place >= self.earlier.entries.len() {
            return None;
        }
        Some(place == self.place)
    }

    /// Whether there is a last step, and it didn't stop the run.
    pub fn ran_to_its_end(self) -> bool
        ensures { IsTrue result → LastGoes self.entry.earlier.now.steps }
    {
        match self.earlier.steps.as_slice().last() {
            None => false,
            Some(step) => !step.outcome.stop,
        }
    }
}
