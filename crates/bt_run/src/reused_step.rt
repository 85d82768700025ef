//! An earlier step is reused if it has the same command and agrees in everything that the new step can reach.
//!
//! A step's name is its command and its entry's key. No two steps of a run have the same name, because a command takes at most
//! one step for each key. So at most one earlier step can agree.

ghost use Rattle.std.specs.Prelude.{◌≡◌, ◌+◌, ◌<◌, ◌≤◌, ◌^◌, ◌↔◌, All, Contains, Some, IsTrue, IfOk, IfSome, OnOk, MatchOption, length, slice_get};
ghost use Rattle.std.specs.Option.{ForSome, option_map};
ghost use Rattle.bt_style.specs.Program.{program_of};
ghost use Rattle.bt_style.specs.Reach.{is_among};
ghost use Rattle.bt_machine.specs.Step.{step_in, outcome_of};
ghost use Rattle.bt_machine.specs.AgreementLaws.{IsFootprint, IsNextOutcome, outcome_over};
ghost use Rattle.bt_machine.specs.Agreement.{fixed};
ghost use Rattle.bt_run.specs.Course.{key_in};
ghost use Rattle.bt_run.specs.declared.course.Step.{Step as StepSeen};
ghost use Rattle.bt_run.specs.inner.Marks.{HaveSameEntry};
ghost use Rattle.bt_run.specs.Work.{IsStep};
ghost use Rattle.bt_run.specs.inner.Marks.{tag_of};
ghost use Rattle.bt_run.specs.inner.Names.{IsIndex, IsNamedAt, IsUnnamed, named_at};
ghost use Rattle.bt_run.specs.inner.Work.{IsUnlikeAt, AreUnlike, IsMet, IsKnown, step_now, IsCounted, IsMarkedAt, name_of};

use crate::course::Step;
use crate::index::Index;
use crate::kept::Kept;
use crate::mark::{Mark, key_or_none, tag_of};
use crate::reuse::{KnownReach, Lookup, Reuse};
use bt_machine::{
    Input, Outcome, TwoInputs, activate, agreeing_inputs_have_one_step, agrees, left_over,
};
use bt_style::{Reach, Style, Target};
use bt_text::{Sequence, Shared};
use std::alloc::{AllocError, Global};

/// How often the marks of all earlier steps are scanned before an index is made, which takes much longer than one scan.
const SCANS: usize = 16;

/// What a step left, and its cost.
#[derive(Drop)]
pub struct Done {
    pub outcome: Outcome,
    pub cost: u128,
}

// What is reached

/// Whether two numbers, or none, are the same.
pub fn is_same_number(one: Option<usize>, other: Option<usize>) -> bool
    ensures { IsTrue result ↔ (one ≡ other) }
{
    match (one, other) {
        (None, None) => true,
        (Some(one), Some(other)) => one == other,
        _ => false,
    }
}

/// What a name reaches with a type's function, if it was computed.
#[tactic(auto, using(bt_style::proofs::ReachLemmas::target_eq_sound))]
fn find_known(known: &[KnownReach], target: Target, function: Option<usize>) -> Option<&KnownReach>
    ensures among { IfSome result (λ k. Contains known.now k.now) }
    ensures target { IfSome result (λ k. k.now.target ≡ target) }
    ensures function { IfSome result (λ k. k.now.function ≡ function) }
{
    'known: for one in known {
        if is_same_number(one.function, function) && one.target == target {
            return Some(one);
        }
    }
    None
}

/// What the step of an input can reach, computed if it isn't known yet.
fn reach_of(
    alloc: Global,
    style: &Style,
    input: &Input,
    known: &mut Sequence<KnownReach>,
) -> Result<Shared<Reach>, AllocError>
    requires { All (IsKnown (program_of style.now)) known.old }
    ensures reach { IfOk result (λ reach. IsFootprint (program_of style.now) input.now reach.targets) }
    ensures known { OnOk result (All (IsKnown (program_of style.now)) known.new) }
{
    let function = input.type_function();
    if let Some(one) = find_known(known.as_slice(), input.target, function) {
        let same = one.reach.share()?;
        return Ok(same);
    }
    let found = style.reach(alloc, input.target, function)?;
    let reach = Shared::new(alloc, found)?;
    let kept = reach.share()?;
    known.push(KnownReach {
        target: input.target,
        function,
        reach: kept,
    })?;
    Ok(reach)
}

// Earlier steps

/// An earlier step and its mark.
#[derive(Clone, Copy)]
pub struct Marked<'a> {
    pub step: &'a Shared<Step>,
    pub mark: Mark,
}

/// The step at a place, with its mark.
pub fn marked_at<'a>(earlier: &'a Kept, place: usize) -> Option<Marked<'a>>
    ensures { IfSome result (IsMarkedAt earlier.entry.now place) }
{
    let step = earlier.steps.as_slice().get(place)?;
    let mark = *earlier.marks.as_slice().get(place)?;
    Some(Marked { step, mark })
}

/// A step that is looked for: its style, its command, its input, what it can reach, and its entry's place, with the places
/// at which the entries are known to be the same.
#[derive(Clone, Copy)]
struct Sought<'a> {
    style: &'a Style,
    command: usize,
    input: &'a Input,
    reach: &'a Reach,
    place: Option<usize>,
    same: &'a [bool],
}

/// Whether the step at a place has the name of this one.
fn is_named_at(earlier: &[Shared<Step>], place: usize, sought: Sought<'_>) -> bool
    ensures { result ≡ named_at (name_of sought.entry) earlier.now place }
{
    match earlier.get(place) {
        None => false,
        Some(step) => {
            sought.command == step.command && key_or_none(sought.input) == key_or_none(&step.input)
        }
    }
}

/// Whether the step at a place has the name of this one. A step with another tag isn't looked at.
fn is_found_at(earlier: &Kept, place: usize, tag: u64, sought: Sought<'_>) -> bool
    requires within { place < length earlier.now.marks }
    requires tag { tag ≡ tag_of sought.command (key_in sought.input.now) }
    ensures { result ≡ named_at (name_of sought.entry) earlier.now.steps place }
{
    let mark = earlier.marks.as_slice()[place];
    if mark.tag != tag {
        return false;
    }
    is_named_at(earlier.steps.as_slice(), place, sought)
}

/// The place of the step of this name, found by looking at all marks.
fn scan(earlier: &Kept, sought: Sought<'_>) -> Option<usize>
    ensures { MatchOption result
        (IsUnnamed (name_of sought.entry) earlier.now.steps) (IsNamedAt (name_of sought.entry) earlier.now.steps) }
{
    let tag = tag_of(sought.command, sought.input);
    'places: for place in 0..earlier.marks.len() {
        if is_found_at(earlier, place, tag, sought) {
            return Some(place);
        }
    }
    None
}

/// The index of the earlier steps, made if there is none yet.
fn index_of(
    alloc: Global,
    earlier: &[Shared<Step>],
    index: Option<Index>,
) -> Result<Index, AllocError>
    requires { ForSome index (IsIndex earlier.now) }
    ensures { IfOk result (λ made. IsIndex earlier.now made) }
{
    match index {
        Some(made) => Ok(made),
        None => Index::of(alloc, earlier),
    }
}

/// The place of the earlier step of this name. Usually it is at the cursor (`next`); otherwise the marks are scanned, and after
/// `SCANS` scans an index is made.
fn place_of(
    alloc: Global,
    earlier: &Kept,
    next: usize,
    sought: Sought<'_>,
    lookup: &mut Lookup,
) -> Result<Option<usize>, AllocError>
    requires { ForSome lookup.old.index (IsIndex earlier.now.steps) }
    ensures place { IfOk result (λ place. MatchOption place (IsUnnamed (name_of sought.entry) earlier.entry.now.steps)
        (IsNamedAt (name_of sought.entry) earlier.entry.now.steps)) }
    ensures indexed { OnOk result (ForSome lookup.new.index (IsIndex earlier.entry.now.steps)) }
{
    let steps = earlier.steps.as_slice();
    if is_named_at(steps, next, sought) {
        return Ok(Some(next));
    }
    if lookup.scans < SCANS {
        lookup.scans += 1;
        return Ok(scan(earlier, sought));
    }
    let made = index_of(alloc, steps, lookup.index.take())?;
    let place = made.place(sought.command, sought.input)?;
    lookup.index = Some(made);
    Ok(place)
}

/// Whether the step at a place is known to have this one's entry, but for its variables.
#[tactic(auto, using(crate::proofs::MarkLemmas::same_marked))]
fn has_same_entry(earlier: &Kept, place: usize, sought: Sought<'_>) -> bool
    requires { HaveSameEntry earlier.now.entries sought.input.now sought.place sought.same.now }
    ensures { IsTrue result → (s : StepSeen) → slice_get earlier.now.steps place ≡ Some s →
        option_map fixed s.input.entry ≡ option_map fixed sought.entry.input.now.entry }
{
    match marked_at(earlier, place) {
        None => false,
        Some(Marked { mark, .. }) => mark.is_same(sought.place, sought.same),
    }
}

/// The step at a place, if it is one of this command and its input agrees with this one in what is reached.
fn like_at<'a>(earlier: &'a Kept, place: usize, sought: Sought<'_>) -> Option<&'a Step>
    requires { HaveSameEntry earlier.now.entries sought.input.now sought.place sought.same.now }
    ensures { MatchOption result
        (IsUnlikeAt sought.entry earlier.now.steps place) (λ step. IsMet sought.entry earlier.now.steps step.now) }
{
    let step: &Step = earlier.steps.as_slice().get(place)?;
    if step.command != sought.command {
        return None;
    }
    let same = has_same_entry(earlier, place, sought);
    let inputs = TwoInputs {
        old: &step.input,
        new: sought.input,
        same,
    };
    if agrees(sought.style, inputs, sought.reach) {
        return Some(step);
    }
    None
}

/// The earlier step of this name, if its input agrees in everything that is reached. If there is a step of this name, the
/// cursor is then after it, even if it disagrees.
fn meet<'a>(
    alloc: Global,
    earlier: &'a Kept,
    sought: Sought<'_>,
    reuse: &mut Reuse,
) -> Result<Option<&'a Step>, AllocError>
    requires indexed { ForSome reuse.old.lookup.index (IsIndex earlier.now.steps) }
    requires same { HaveSameEntry earlier.now.entries sought.input.now sought.place sought.same.now }
    ensures met { IfOk result (λ met. MatchOption met
        (AreUnlike sought.entry earlier.entry.now.steps) (λ step. IsMet sought.entry earlier.entry.now.steps step.now)) }
    ensures indexed { OnOk result (ForSome reuse.new.lookup.index (IsIndex earlier.entry.now.steps)) }
    ensures rest { OnOk result (reuse.new ≡ record reuse.old { next = reuse.new.next; lookup = reuse.new.lookup }) }
{
    let found = place_of(alloc, earlier, reuse.next, sought, &mut reuse.lookup)?;
    match found {
        None => Ok(None),
        Some(place) => {
            reuse.next = place.saturating_add(1);
            Ok(like_at(earlier, place, sought))
        }
    }
}

// A step

/// An earlier step, reused: what it left of everything that it can reach, and all else as it is now.
fn take_over(alloc: Global, step: &Step, input: &Input, reach: &Reach) -> Result<Done, AllocError>
    requires { step.now.outcome ≡ outcome_over (is_among reach.now.targets) step.now.input step.now.outcome }
    ensures outcome { IfOk result
        (λ d. IsNextOutcome reach.now.targets step.now.input step.now.outcome input.now d.outcome) }
    ensures cost { IfOk result (λ d. d.cost ≡ step.now.cost) }
{
    let outcome = left_over(alloc, &step.input, &step.outcome, input, reach)?;
    Ok(Done {
        outcome,
        cost: step.cost,
    })
}

fn carry_out_step(
    alloc: Global,
    style: &Style,
    input: &Input,
    reuse: &mut Reuse,
) -> Result<Done, AllocError>
    requires meter { reuse.old.meter + 1000000 < 2 ^ 128 }
    requires ran { reuse.old.ran + 1 < 2 ^ 128 }
    ensures outcome { IfOk result (λ d. d.outcome ≡ outcome_of (step_in (program_of style.now) input.now)) }
    ensures cost { IfOk result (λ d. d.cost ≡ (step_in (program_of style.now) input.now).cost) }
    ensures ran { OnOk result (reuse.new.ran ≡ reuse.old.ran + 1) }
    ensures within { OnOk result (reuse.new.meter ≤ reuse.old.meter + 1000000) }
    ensures ticks { OnOk result
        (reuse.new.meter ≡ reuse.old.meter + (step_in (program_of style.now) input.now).cost) }
    ensures known { OnOk result (reuse.new.known ≡ reuse.old.known) }
    ensures lookup { OnOk result (reuse.new.lookup ≡ reuse.old.lookup) }
{
    let before = reuse.meter.value();
    let outcome = activate(alloc, style, input, &mut reuse.meter)?;
    let cost = reuse.meter.value() - before;
    reuse.ran += 1;
    Ok(Done { outcome, cost })
}

/// A step to take: its command and its input, under a style, after an earlier run of that style.
#[derive(Clone, Copy)]
pub struct StepToTake<'a> {
    pub alloc: Global,
    pub style: &'a Style,
    pub earlier: &'a Kept,
    pub command: usize,
    pub input: &'a Input,
    /// The place of its entry. None if it has no entry, or nothing is known of it.
    pub place: Option<usize>,
    /// Whether the earlier run's entry at a place is the one there, but for its variables.
    pub same: &'a [bool],
    ghost steps: { All (IsStep (program_of style.now)) earlier.now.steps },
    ghost alike: { HaveSameEntry earlier.now.entries input.now place same.now },
}

impl StepToTake<'_> {
    /// What the step leaves: reused if the earlier run has the step, otherwise run.
    pub fn take_over_or_carry_out(self, reuse: &mut Reuse) -> Result<Done, AllocError>
        requires meter { reuse.old.meter + 1000000 < 2 ^ 128 }
        requires ran { reuse.old.ran + 1 < 2 ^ 128 }
        requires known { All (IsKnown (program_of self.style.now)) reuse.old.known }
        requires indexed { ForSome reuse.old.lookup.index (IsIndex self.earlier.now.steps) }
        ensures outcome { IfOk result (λ d.
            d.outcome ≡ outcome_of (step_in (program_of self.entry.style.now) self.entry.input.now)) }
        ensures cost { IfOk result (λ d. d.cost ≡ (step_in (program_of self.entry.style.now) self.entry.input.now).cost) }
        ensures known { OnOk result (All (IsKnown (program_of self.entry.style.now)) reuse.new.known) }
        ensures indexed { OnOk result (ForSome reuse.new.lookup.index (IsIndex self.entry.earlier.now.steps)) }
        ensures within { OnOk result (reuse.new.meter ≤ reuse.old.meter + 1000000) }
        ensures counted { IfOk result (λ d. IsCounted (program_of self.entry.style.now) self.entry.earlier.now.steps
            (step_now self.entry.command self.entry.input.now d.outcome d.cost) reuse.old reuse.new) }
    {
        let StepToTake {
            alloc,
            style,
            earlier,
            command,
            input,
            place,
            same,
        } = self;
        // This call does nothing; the proof needs its contract, a law of the machine.
        agreeing_inputs_have_one_step();
        let known = reach_of(alloc, style, input, &mut reuse.known)?;
        let reach: &Reach = &known;
        let sought = Sought {
            style,
            command,
            input,
            reach,
            place,
            same,
        };
        let met = meet(alloc, earlier, sought, reuse)?;
        match met {
            Some(step) => {
                let taken = take_over(alloc, step, input, reach)?;
                Ok(taken)
            }
            None => {
                let ran = carry_out_step(alloc, style, input, reuse)?;
                Ok(ran)
            }
        }
    }
}
