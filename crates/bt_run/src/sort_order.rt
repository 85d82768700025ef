//! Whether SORT leaves the changed entry in its place.
//!
//! SORT isn't run, since that would compare the keys of all entries. The next ITERATE takes the entries in the order that
//! SORT made, and no command between the two changes an entry. So the entry's neighbours in that order are the entries of
//! the steps before and after its own, and the inputs of these steps have their sort keys. The order stays if the entry's
//! key is the old one, or lies strictly between its neighbours'. Entries with equal keys come in list order; that isn't
//! looked up, so an equal key begins a whole run. So does a SORT that REVERSE follows.

ghost use Rattle.std.specs.Prelude.{◌≡◌, ◌<◌, true, IsTrue, MatchOption, Some, length, slice_get};
ghost use Rattle.std.specs.Ordering.{is_lt, nat_cmp};
ghost use Rattle.std.specs.Cmp.Lexicographic.{slice_cmp};
ghost use Rattle.bt_style.specs.Program.{program_of};
ghost use Rattle.bt_run.specs.declared.course.Step.{Step as StepSeen};
ghost use Rattle.bt_run.specs.inner.SortOrder.{HasItsPlace, HasNoSort, IsBefore, IsBehind, IsFirstSort, IsIterate, IsIterated, KeepsOrderIn, is_sort, keeps_entries};

use crate::sort_command::sort_key;
use crate::walk_context::WalkContext;
use bt_actions::Entry;
use bt_style::{Action, Command};
use bt_text::equal_bytes;
use std::cmp::Ordering;

fn is_sort(command: &Command) -> bool
    ensures { result ≡ is_sort command.now.action }
{
    matches!(command.action, Action::Sort)
}

fn is_iterate(command: &Command) -> bool
    ensures { IsTrue result → IsIterate command.now }
{
    matches!(command.action, Action::Iterate(_))
}

fn keeps_entries(command: &Command) -> bool
    ensures { IsTrue result → keeps_entries command.now.action ≡ true }
{
    !matches!(
        command.action,
        Action::Iterate(_) | Action::Reverse(_) | Action::Read | Action::Sort
    )
}

/// The first SORT among the commands from number `from` on and before number `before`.
fn first_sort(commands: &[Command], from: usize, before: usize) -> Option<usize>
    ensures { MatchOption result (HasNoSort commands.now from before) (IsFirstSort commands.now from before) }
{
    'commands: for number in 0..commands.len() {
        if from <= number && number < before && is_sort(&commands[number]) {
            return Some(number);
        }
    }
    None
}

/// Whether the command `iterate` is ITERATE, and the commands between `sort` and it keep the entries and their order.
fn is_iterated(commands: &[Command], sort: usize, iterate: usize) -> bool
    ensures { IsTrue result → IsIterated commands.now sort iterate }
{
    if iterate >= commands.len() || !is_iterate(&commands[iterate]) {
        return false;
    }
    'commands: for number in 0..iterate {
        if sort < number && !keeps_entries(&commands[number]) {
            return false;
        }
    }
    true
}

fn is_less(one: &[u8], other: &[u8]) -> bool
    ensures { IsTrue result → is_lt (slice_cmp nat_cmp one.now other.now) ≡ true }
{
    matches!(one.cmp(other), Ordering::Less)
}

impl WalkContext<'_> {
    /// Whether the step before step `number`, if this command ran it too, is for an entry with a lower sort key.
    fn is_behind(self, number: usize, command: usize, key: &[u8]) -> bool
        requires { number < length self.earlier.now.steps }
        ensures { IsTrue result → IsBehind self.entry.earlier.now.steps command number key.now }
    {
        if number == 0 {
            return true;
        }
        let step = &self.earlier.steps.as_slice()[number - 1];
        match &step.input.entry {
            Some(entry) if step.command == command => is_less(sort_key(entry), key),
            _ => true,
        }
    }

    /// Whether the step after step `number`, if this command ran it too, is for an entry with a higher sort key.
    fn is_before(self, number: usize, command: usize, key: &[u8]) -> bool
        requires { number < length self.earlier.now.steps }
        ensures { IsTrue result → IsBefore self.entry.earlier.now.steps command number key.now }
    {
        let count = self.earlier.steps.len();
        if number + 1 >= count {
            return true;
        }
        let step = &self.earlier.steps.as_slice()[number + 1];
        match &step.input.entry {
            Some(entry) if step.command == command => is_less(key, sort_key(entry)),
            _ => true,
        }
    }

    /// Whether a SORT before the step of a number puts this entry where it put the old one.
    fn stays(self, number: usize, entry: &Entry) -> bool
        requires { number < length self.earlier.now.steps }
        ensures { IsTrue result → (s : StepSeen) → slice_get self.entry.earlier.now.steps number ≡ Some s →
            HasItsPlace self.entry.earlier.now.steps number s entry.now }
    {
        let key = sort_key(entry);
        let step = &self.earlier.steps.as_slice()[number];
        let Some(old) = &step.input.entry else {
            return false;
        };
        equal_bytes(sort_key(old), key)
            || (self.is_behind(number, step.command, key)
                && self.is_before(number, step.command, key))
    }

    /// Whether a command after `after` ran step `number`, and each SORT between the two commands gives the old order.
    pub fn keeps_order(self, number: usize, entry: &Entry, after: usize) -> bool
        requires { number < length self.earlier.now.steps }
        ensures { IsTrue result → KeepsOrderIn self.entry number entry.now after }
    {
        let commands = self.style.commands.as_slice();
        let command = self.earlier.steps.as_slice()[number].command;
        if command <= after {
            return false;
        }
        match first_sort(commands, after, command) {
            None => true,
            Some(sort) => {
                if sort <= after {
                    return false;
                }
                if !is_iterated(commands, sort, command) {
                    return false;
                }
                self.stays(number, entry)
            }
        }
    }

    /// Whether no command from this one on is SORT.
    pub fn has_no_sort_from(self, from: usize) -> bool
        ensures { IsTrue result → HasNoSort (program_of self.entry.style.now).commands from
            (length (program_of self.entry.style.now).commands) }
    {
        let commands = self.style.commands.as_slice();
        first_sort(commands, from, commands.len()).is_none()
    }
}
