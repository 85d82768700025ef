//! The beginning of a run, and a style that can't be carried out.

ghost use Rattle.std.specs.Prelude.{◌≡◌, ◌++◌, ◌∷◌, [], map, IfOk};
ghost use Rattle.bt_style.specs.Program.{program_of};
ghost use Rattle.bt_actions.specs.World.{no_variables};
ghost use Rattle.bt_run.specs.Meaning.{first_globals, run_begun, first_number};
ghost use Rattle.bt_run.specs.inner.Cases.{fault_told};

use crate::course::Course;
use crate::declarations::empty_texts;
use bt_actions::Variables;
use bt_log::{Message, Place, Rank, Said};
use bt_style::{Style, StyleFault};
use bt_text::{Bytes, Held, Sequence, Shared, Values};
use std::alloc::{AllocError, Global};

fn first_number(name: &[u8]) -> i32
    ensures { result ≡ first_number name.now }
{
    if name == b"entry.max$".as_slice() {
        250
    } else if name == b"global.max$".as_slice() {
        20000
    } else {
        0
    }
}

fn first_numbers(alloc: Global, names: &[Bytes]) -> Result<Values<i32>, AllocError>
    ensures { IfOk result (λ numbers. numbers ≡ map first_number names.now) }
{
    let mut numbers = Vec::new(alloc);
    'names: for name in names {
        numbers.push(first_number(name.as_slice()))?;
    }
    Values::from_vec(alloc, numbers)
}

/// The globals at the start, as many as the style declares.
pub fn first_globals(alloc: Global, style: &Style) -> Result<Variables, AllocError>
    ensures { IfOk result (λ globals. globals ≡ first_globals (program_of style.now)) }
{
    Ok(Variables {
        numbers: first_numbers(alloc, style.global_numbers.as_slice())?,
        texts: empty_texts(alloc, style.global_texts.as_slice())?,
    })
}

/// A run that has logged this, before the style's commands.
pub fn begin(
    alloc: Global,
    globals: Variables,
    log: Sequence<Message>,
) -> Result<Course, AllocError>
    ensures { IfOk result (λ course. course ≡ (run_begun globals log).course) }
{
    Ok(Course {
        entries: Sequence::new(alloc),
        order: Sequence::new(alloc),
        globals: Shared::new(alloc, globals)?,
        preamble: Shared::new(alloc, Bytes::new(alloc))?,
        held: Held::new(alloc),
        log,
        stopped: false,
    })
}

/// The same messages, shared.
pub fn shared_messages(alloc: Global, messages: &[Message]) -> Result<Sequence<Message>, AllocError>
    ensures { IfOk result (λ same. same ≡ messages.now) }
{
    let mut same = Sequence::new(alloc);
    'messages: for message in messages {
        same.push(message.share()?)?;
    }
    Ok(same)
}

/// A run that does nothing but log.
pub fn idle(alloc: Global, log: Sequence<Message>) -> Result<Course, AllocError>
    ensures { IfOk result (λ course. course ≡ (run_begun no_variables log).course) }
{
    let globals = Variables {
        numbers: Values::new(alloc),
        texts: Values::new(alloc),
    };
    begin(alloc, globals, log)
}

/// The error of a style's fault.
fn fault_told(alloc: Global, file: &[u8], fault: StyleFault) -> Result<Message, AllocError>
    ensures { IfOk result (λ message. message ≡ fault_told file.now fault) }
{
    let place = Place::Line {
        file: Shared::<Bytes>::copied(alloc, file)?,
        line: fault.line as u128,
        byte: None,
    };
    Ok(Message {
        rank: Rank::Error,
        said: Said::Words(Shared::<Bytes>::copied(alloc, fault.kind.words())?),
        entry: None,
        place: Some(place),
        second: None,
    })
}

/// A log with a style's fault, which ends the run.
pub fn with_fault(
    alloc: Global,
    file: &[u8],
    fault: StyleFault,
    log: Sequence<Message>,
) -> Result<Sequence<Message>, AllocError>
    ensures { IfOk result (λ told. told ≡ log ++ fault_told file.now fault ∷ []) }
{
    let mut told = log;
    told.push(fault_told(alloc, file, fault)?)?;
    Ok(told)
}
