//! How the new run takes the place of the old one.
//!
//! What it shows, except the bibliography, is made first, beside the old answers. Then the bibliography is changed
//! (`bibliography.rt`), which is the last step that can fail, and then the rest of what is kept.

ghost use Rattle.std.specs.Prelude.{◌≡◌, ◌++◌, ℕ, List, IfOk};
ghost use Rattle.bt_log.specs.declared.message.Message.{Message as MessageSeen};
ghost use Rattle.bt_run.specs.Counts.{counts_told};
ghost use Rattle.bt_run.specs.inner.Calls.{AreCalls};
ghost use Rattle.bt_run.specs.inner.Put.{AreShown, GoesOver, IsPutBeside, with_lengths};
ghost use Rattle.bt_run.specs.inner.Steps.{calls_in};
ghost use Rattle.bt_run.specs.inner.Walk.{with_steps};

use crate::answers::{Answers, Run, show};
use crate::counts::{COUNT_LINES, Calls, tell_counts};
use crate::course::Step;
use crate::declarations::copied_texts;
use crate::kept::Kept;
use crate::kept_resolution::KeptResolution;
use crate::start::shared_messages;
use crate::walk::{NewStep, Walk};
use bt_log::Message;
use bt_text::{Bytes, Sequence, Shared};
use std::alloc::{AllocError, Global};

/// The new run's log, from the old one and the new calls.
fn log_with(alloc: Global, log: &[Message], calls: &Calls) -> Result<Sequence<Message>, AllocError>
    ensures { IfOk result (λ told. (before : List MessageSeen) (was : ℕ → ℕ) → log.now ≡ before ++ counts_told was →
        told ≡ before ++ counts_told (calls_in calls.now)) }
{
    let before = log.len().saturating_sub(COUNT_LINES);
    let mut told = shared_messages(alloc, &log[..before])?;
    tell_counts(alloc, &mut told, calls)?;
    Ok(told)
}

impl Run {
    /// What the new run shows, without the bibliography.
    pub(crate) fn new_answers(&self, alloc: Global, walk: &Walk) -> Result<Answers, AllocError>
        requires calls { AreCalls (with_steps self.now.kept.steps walk.now.steps) walk.now.calls }
        ensures { IfOk result (AreShown self.now walk.now) }
    {
        let log = log_with(alloc, self.answers.messages.as_slice(), &walk.calls)?;
        let wanted = copied_texts(alloc, self.answers.wanted.as_slice())?;
        let answers = show(alloc, Bytes::new(alloc), log, wanted)?;
        Ok(answers)
    }
}

fn put_lengths(lengths: &mut Sequence<usize>, others: &[NewStep])
    ensures { lengths.new ≡ with_lengths lengths.old others.now }
{
    'others: for other in others {
        if other.number < lengths.len() {
            lengths.set(other.number, other.length);
        }
    }
}

/// Puts re-made steps in the place of the old ones.
#[tactic(auto, using(crate::proofs::PutLemmas::put_more, crate::proofs::PutLemmas::put_beyond))]
fn put_steps(steps: &mut Sequence<Shared<Step>>, others: Sequence<NewStep>)
    ensures { steps.new ≡ with_steps steps.old others }
{
    'others: for other in others.into_vec() {
        let NewStep { number, step, .. } = other;
        if number < steps.len() {
            steps.set(number, step);
        }
    }
}

/// The kept resolution, with its edit made.
#[tactic(auto, using(crate::proofs::PutKeptLemmas::goes_none))]
fn after_edit(resolution: Option<KeptResolution>) -> Option<KeptResolution>
    ensures { GoesOver resolution result }
{
    match resolution {
        None => None,
        Some(mut kept) => {
            kept.put();
            Some(kept)
        }
    }
}

impl Kept {
    /// Becomes what is kept of the new run.
    pub(crate) fn put(&mut self, place: usize, walk: Walk)
        requires { IsPutBeside self.old place walk }
        ensures text { self.new.text ≡ self.old.text }
        ensures steps { self.new.steps ≡ with_steps self.old.steps walk.steps }
        ensures present { self.new.is_present ≡ self.old.is_present }
        ensures resolution { GoesOver self.old.resolution self.new.resolution }
    {
        let Walk {
            entry,
            steps,
            calls,
            ..
        } = walk;
        put_lengths(&mut self.lengths, steps.as_slice());
        put_steps(&mut self.steps, steps);
        self.entries.set(place, entry);
        self.calls = Some(calls);
        let resolution = self.resolution.take();
        self.resolution = after_edit(resolution);
    }
}
