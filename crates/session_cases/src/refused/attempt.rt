//! A call that may be refused memory, and that is then made once more.

use bt_text::Bytes;
use std::alloc::{AllocError, Global};

/// The value on which calls are made, with their answers.
pub trait Case: Drop {
    /// The value before the first call, without an answer.
    fn begun(alloc: Global) -> Result<Self, AllocError>;

    /// Makes the call of this name, and keeps its answer. The error is that the call reports out of memory.
    fn call(&mut self, alloc: Global, name: &str) -> Result<(), AllocError>;

    /// All that can be seen of the value, the answer included.
    fn seen(&self, alloc: Global) -> Result<Bytes, AllocError>;
}

/// How much of a case is run.
#[derive(Clone, Copy, PartialEq, Eq)]
pub enum Part {
    /// The value for the call, and the results that it must have.
    Setup,
    /// The same, and the call, once.
    Call,
    Whole,
}

/// The verdict on a case.
#[derive(Clone, Copy, PartialEq, Eq)]
pub enum Verdict {
    NotRefused,
    /// The call was refused memory, and nothing was lost.
    Kept,
    Lost,
}

/// What is seen before and after a call that isn't refused memory.
#[derive(Drop)]
struct Wanted {
    before: Bytes,
    after: Bytes,
}

fn shown_by<C: Case>(alloc: Global, example: &mut C, name: &str) -> Result<Wanted, AllocError> {
    let before = example.seen(alloc)?;
    example.call(alloc, name)?;
    let after = example.seen(alloc)?;
    Ok(Wanted { before, after })
}

fn by_example<C: Case>(alloc: Global, name: &str) -> Result<Wanted, AllocError> {
    let mut example = C::begun(alloc)?;
    shown_by(alloc, &mut example, name)
}

fn shows<C: Case>(alloc: Global, case: &C, wanted: &Bytes) -> Result<bool, AllocError> {
    Ok(case.seen(alloc)?.as_slice() == wanted.as_slice())
}

/// Makes a call and judges it.
fn judged<C: Case>(
    alloc: Global,
    case: &mut C,
    name: &str,
    wanted: &Wanted,
) -> Result<Verdict, AllocError> {
    let mut verdict = Verdict::NotRefused;
    if case.call(alloc, name).is_err() {
        if !shows(alloc, case, &wanted.before)? || case.call(alloc, name).is_err() {
            return Ok(Verdict::Lost);
        }
        verdict = Verdict::Kept;
    }
    if shows(alloc, case, &wanted.after)? {
        Ok(verdict)
    } else {
        Ok(Verdict::Lost)
    }
}

/// The verdict on a case of which only this part is run.
fn verdict_in<C: Case>(
    alloc: Global,
    case: &mut C,
    name: &str,
    part: Part,
    wanted: &Wanted,
) -> Result<Verdict, AllocError> {
    match part {
        Part::Setup => Ok(Verdict::NotRefused),
        Part::Call => {
            let _ = case.call(alloc, name);
            Ok(Verdict::NotRefused)
        }
        Part::Whole => judged(alloc, case, name, wanted),
    }
}

/// The verdict on the call of a name. The error is that memory was refused outside of the call.
pub fn verdict_on<C: Case>(alloc: Global, name: &str, part: Part) -> Result<Verdict, AllocError> {
    let wanted = by_example::<C>(alloc, name)?;
    let mut case = C::begun(alloc)?;
    verdict_in(alloc, &mut case, name, part, &wanted)
}
