//! What to do about a message: at most ten lines on standard error, which no tool reads.

mod entries;
mod missing;
mod quick_look;
mod source_lines;

use crate::report::complain;
use bt_job::File;
use bt_log::{Message, Said};
use bt_run::Answers;
use std::alloc::{AllocError, Global};
use std::fs;

/// How many hints are printed at most; nobody reads more than a screen of them.
const HINTS: usize = 10;

/// The hints of a run: prints them until there are too many.
#[derive(Drop)]
struct Hints<'a> {
    rt: &'a HostRuntime,
    left: usize,
}

impl Hints<'_> {
    /// Prints a hint, unless there were too many.
    fn give(&mut self, pieces: &[&[u8]]) {
        if self.left > 0 {
            self.left -= 1;
            complain(self.rt, pieces);
        }
    }

    fn is_full(&self) -> bool {
        self.left == 0
    }
}

/// What a job's hints are made from.
#[derive(Clone, Copy)]
pub struct Job<'a> {
    pub name: &'a str,
    pub files: &'a [File],
    pub run: &'a Answers,
}

impl<'a> Job<'a> {
    fn text(&self, name: &[u8]) -> Option<&'a [u8]> {
        let file = self.files.iter().find(|file| file.name.as_slice() == name)?;
        Some(file.text.as_slice())
    }

    fn messages(&self) -> &'a [Message] {
        self.run.messages.as_slice()
    }

    fn says(&self, words: &[u8]) -> bool {
        self.messages()
            .iter()
            .any(|message| has_words(message, words))
    }
}

fn has_words(message: &Message, words: &[u8]) -> bool {
    match &message.said {
        Said::Words(said) => said.as_slice() == words,
        Said::OfFile { .. } => false,
    }
}

fn is_biblatex(alloc: Global, job: Job<'_>) -> Result<bool, AllocError> {
    let name = format!(in alloc; "{}.aux", job.name)?;
    let Some(text) = job.text(name.as_bytes()) else {
        return Ok(false);
    };
    Ok(
        text.split(|byte| *byte == b'\n')
            .any(|line| line.starts_with(b"\\abx@aux@")),
    )
}

fn has_control_file(alloc: Global, rt: &HostRuntime, job: Job<'_>) -> Result<bool, AllocError> {
    let name = format!(in alloc; "{}.bcf", job.name)?;
    match fs::exists(rt, name.as_str()) {
        Ok(is_there) => Ok(is_there),
        Err(_) => Ok(false),
    }
}

/// Prints a hint if biber, and not BibTeX, makes the document's bibliography.
fn hint_at_biber(alloc: Global, hints: &mut Hints<'_>, job: Job<'_>) -> Result<(), AllocError> {
    let is_bibers = job.says(b"I found no \\bibdata command")
        && (is_biblatex(alloc, job)? || has_control_file(alloc, hints.rt, job)?);
    if is_bibers {
        hints.give(&[
            b"hint: this document uses biblatex with biber; run: biber ",
            job.name.as_bytes(),
            b"\n",
        ]);
    }
    Ok(())
}

/// Prints the hints of a run. The only error is out of memory; some may have been printed then.
pub fn print(rt: &HostRuntime, job: Job<'_>) -> Result<(), AllocError> {
    let alloc = rt.alloc();
    let mut hints = Hints { rt, left: HINTS };
    hint_at_biber(alloc, &mut hints, job)?;
    missing::hint(alloc, &mut hints, job)?;
    source_lines::hint(alloc, &mut hints, job)?;
    entries::hint(alloc, &mut hints, job)
}
