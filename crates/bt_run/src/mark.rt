//! What is kept beside a step, so that the next run can tell without much reading what it can do with the step.
//!
//! A scan for a step of some command and key looks only at steps with the same tag. The marks stand side by side, while
//! the keys are all over the memory: to compare the keys took 9 to 15 % of a title edit.

ghost use Rattle.std.specs.Prelude.{◌≡◌, ◌<◌, IfOk, IsTrue, map};
ghost use Rattle.bt_run.specs.Course.{key_in};
ghost use Rattle.bt_run.specs.inner.Earlier.{IsSameAt};
ghost use Rattle.bt_run.specs.inner.Index.{key_or_none};
ghost use Rattle.bt_run.specs.inner.Marks.{bare_mark, tag_from, tag_of};

use crate::course::Step;
use bt_machine::Input;
use bt_text::{Sequence, Shared};
use std::alloc::{AllocError, Global};

/// Tags stay below this number, so `tag * 31 + byte` fits 64 bits.
const TAGS: u64 = 4_294_967_296;

/// What is kept beside a step.
#[derive(Clone, Copy)]
pub struct Mark {
    /// The place in the list of the step's entry, if it has one.
    pub place: Option<usize>,
    /// A hash of the step's command and its entry's key.
    pub tag: u64,
}

impl Mark {
    /// Whether the step's entry is the one at a place, which is marked as the same.
    pub fn is_same(self, place: Option<usize>, same: &[bool]) -> bool
        ensures { IsTrue result → IsSameAt same.now self.place place }
    {
        match (self.place, place) {
            (Some(own), Some(place)) => own == place && place < same.len() && same[place],
            _ => false,
        }
    }
}

fn tag_from(first: u64, bytes: &[u8]) -> u64
    requires { first < 4294967296 }
    ensures { result ≡ tag_from first bytes.now }
{
    let mut tag = first;
    'bytes: for byte in bytes {
        tag = (tag * 31 + u64::from(*byte)) % TAGS;
    }
    tag
}

/// The key of an input's entry; nothing where there is none.
pub fn key_or_none(input: &Input) -> &[u8]
    ensures { result.now ≡ key_or_none (key_in input.now) }
{
    match &input.entry {
        None => &[],
        Some(entry) => entry.key.as_slice(),
    }
}

/// The tag of a step of this command with this input.
pub fn tag_of(command: usize, input: &Input) -> u64
    ensures { result ≡ tag_of command (key_in input.now) }
{
    tag_from(command as u64 % TAGS, key_or_none(input))
}

/// The marks of steps for no entry.
pub fn marks_of(alloc: Global, steps: &[Shared<Step>]) -> Result<Sequence<Mark>, AllocError>
    ensures { IfOk result (λ marks. marks ≡ map bare_mark steps.now) }
{
    let mut marks = Sequence::new(alloc);
    'steps: for step in steps {
        marks.push(Mark {
            place: None,
            tag: tag_of(step.command, &step.input),
        })?;
    }
    Ok(marks)
}
