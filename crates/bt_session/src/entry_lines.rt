//! What an entry prints: the lines of the bibliography that the steps for its key end.

ghost use Rattle.std.specs.Prelude.{◌≡◌, [], if◌then◌else◌, IfOk};
ghost use Rattle.bt_log.specs.Log.{lines_bytes};
ghost use Rattle.bibtex.specs.EntryText.{is_for, entry_text};

use bt_log::lines_bytes;
use bt_run::Step;
use bt_text::{Bytes, Shared, eq_ignore_ascii_case};
use std::alloc::{AllocError, Global};

fn is_for(step: &Step, key: &[u8]) -> bool
    ensures { result ≡ is_for key.now step.now }
{
    match &step.key {
        Some(own) => eq_ignore_ascii_case(own.as_slice(), key),
        None => false,
    }
}

fn lines_if_for(alloc: Global, step: &Step, key: &[u8]) -> Result<Bytes, AllocError>
    ensures { IfOk result (λ text. text ≡ (if is_for key.now step.now then lines_bytes step.now.outcome.lines else [])) }
{
    if is_for(step, key) {
        lines_bytes(alloc, step.outcome.lines.as_slice())
    } else {
        Ok(Bytes::new(alloc))
    }
}

/// The lines that the steps for the entry of a key end, each with a line feed.
pub fn entry_text(alloc: Global, steps: &[Shared<Step>], key: &[u8]) -> Result<Bytes, AllocError>
    ensures { IfOk result (λ text. text ≡ entry_text key.now steps.now) }
{
    let mut text = Bytes::new(alloc);
    'steps: for step in steps {
        let lines = lines_if_for(alloc, step, key)?;
        text.append(lines.as_slice())?;
    }
    Ok(text)
}
