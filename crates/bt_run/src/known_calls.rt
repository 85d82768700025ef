//! How often a run called each built-in function, known from the previous run.
//!
//! Few steps change from one run to the next. So a run starts with the sums of the previous run. When a new step replaces
//! an old one, or the cursor skips one, the sums lose the old step's calls, and they gain the new one's. Only if steps moved
//! are all of them added up.

ghost use Rattle.std.specs.Prelude.{◌+◌, ◌++◌, ◌<◌, ◌≤◌, [], ◌∷◌, List, length, IfOk, IsTrue, OnOk};
ghost use Rattle.std.specs.Option.{ForSome};
ghost use Rattle.bt_run.specs.declared.course.Step.{Step as StepSeen};
ghost use Rattle.bt_run.specs.inner.Calls.{AreCalls, AreCallsFrom, AreExchanged};
ghost use Rattle.bt_run.specs.inner.Turn.{IsSharedFrom};

use crate::counts::{Calls, add_calls, count_calls};
use crate::course::Step;
use bt_style::BUILTIN_COUNT;
use bt_text::Shared;
use std::alloc::AllocError;

/// How a step moved the cursor in the steps of the previous run, and whether it is the step at which the cursor stood.
#[derive(Clone, Copy)]
pub struct Turn {
    pub from: usize,
    pub next: usize,
    pub shared: bool,
}

/// Replaces one step's calls by another's.
pub fn exchange_calls(
    sums: &mut Calls,
    old: &[u32; BUILTIN_COUNT],
    new: &[u32; BUILTIN_COUNT],
) -> Result<(), AllocError>
    ensures { OnOk result (AreExchanged sums.old sums.new old.now new.now) }
{
    // A reused step made the same calls.
    if old.as_slice() == new.as_slice() {
        return Ok(());
    }
    'places: for place in 0..BUILTIN_COUNT {
        let rest = sums[place]
            .checked_sub(u64::from(old[place]))
            .ok_or(AllocError)?;
        sums[place] = rest.checked_add(u64::from(new[place])).ok_or(AllocError)?;
    }
    Ok(())
}

/// Takes away the calls of some of the previous run's steps.
fn skip_calls(
    sums: &mut Calls,
    earlier: &[Shared<Step>],
    from: usize,
    count: usize,
) -> Result<(), AllocError>
    requires { from + count ≤ length earlier.now }
    ensures { OnOk result ((steps : List StepSeen) → AreCallsFrom earlier.now from steps sums.old →
        AreCallsFrom earlier.now (from + count) steps sums.new) }
{
    'skipped: for skipped in 0..count {
        let old = &earlier[from + skipped].outcome.calls;
        exchange_calls(sums, old, &[0; BUILTIN_COUNT])?;
    }
    Ok(())
}

/// Counts one more step in the calls of the steps so far and of the previous run's steps from the cursor on. Returns false
/// if the cursor moved backwards; then the sums no longer hold.
#[tactic(auto, using(crate::proofs::TurnLemmas::calls_added, crate::proofs::TurnLemmas::calls_exchanged))]
fn count_in(
    sums: &mut Calls,
    earlier: &[Shared<Step>],
    turn: Turn,
    step: &Step,
) -> Result<bool, AllocError>
    ensures { IfOk result (λ known. IsTrue known → (steps : List StepSeen) → AreCallsFrom earlier.now turn.from steps sums.old →
        AreCallsFrom earlier.now turn.next (steps ++ step.now ∷ []) sums.new) }
{
    let Turn { from, next, .. } = turn;
    if next == from {
        add_calls(sums, &step.outcome.calls)?;
        return Ok(true);
    }
    if next < from || next > earlier.len() {
        return Ok(false);
    }
    let last = next - 1;
    skip_calls(sums, earlier, from, last - from)?;
    exchange_calls(sums, &earlier[last].outcome.calls, &step.outcome.calls)?;
    Ok(true)
}

/// Counts one more step. A step that is shared changes nothing: it was counted before.
pub fn count_step(
    calls: &mut Option<Calls>,
    earlier: &[Shared<Step>],
    turn: Turn,
    step: &Step,
) -> Result<(), AllocError>
    requires { IsTrue turn.shared → IsSharedFrom earlier.now step.now turn.from turn.next }
    ensures { OnOk result ((steps : List StepSeen) → ForSome calls.old (AreCallsFrom earlier.now turn.from steps) →
        ForSome calls.new (AreCallsFrom earlier.now turn.next (steps ++ step.now ∷ []))) }
{
    if turn.shared {
        return Ok(());
    }
    let Some(sums) = calls else {
        return Ok(());
    };
    if !count_in(sums, earlier, turn, step)? {
        *calls = None;
    }
    Ok(())
}

/// The calls of all steps of a run. If the cursor is at the end, the known sums are theirs; otherwise they are added up.
pub fn calls_of_all(
    earlier: &[Shared<Step>],
    next: usize,
    steps: &[Shared<Step>],
    known: Option<Calls>,
) -> Result<Calls, AllocError>
    requires { ForSome known (AreCallsFrom earlier.now next steps.now) }
    ensures { IfOk result (AreCalls steps.now) }
{
    if let Some(calls) = known
        && next >= earlier.len()
    {
        return Ok(calls);
    }
    let calls = count_calls(steps)?;
    Ok(calls)
}
