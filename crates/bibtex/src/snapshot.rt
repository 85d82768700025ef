//! A state that is run once, without what a session keeps for its next edit.

ghost use Rattle.std.specs.Prelude.{◌≡◌, IfOk};

use crate::draft::Draft;
use crate::state::State;
use bt_run::{Answers, run_once};
use std::alloc::AllocError;
use std::marker::Model;

/// A state and what it means. No edit can change it.
#[derive(Drop)]
pub struct Snapshot {
    state: State,
    answers: Answers,
}

impl Model for Snapshot {
    ghost use Rattle.std.specs.Prelude.{◌≡◌};
    ghost use Rattle.bibtex.specs.declared.state.State.{State};
    ghost use Rattle.bibtex.specs.Present.{shown};
    ghost use Rattle.bt_run.specs.Shown.{meaning_of};

    ghost Value = { State };

    ghost view = { λ s. s.state };

    ghost invariant = { λ s. meaning_of s.answers ≡ shown s.state };
}

impl Snapshot {
    ghost use Rattle.bibtex.specs.Present.{shown};

    /// What this state means.
    pub fn of(draft: Draft) -> Result<Snapshot, AllocError>
        ensures { IfOk result (λ snapshot. snapshot ≡ draft) }
    {
        let Draft { alloc, state } = draft;
        let answers = run_once(
            alloc,
            state.texts.as_slice(),
            state.root.as_slice(),
            state.min,
        )?;
        Ok(Snapshot { state, answers })
    }

    /// The bytes of the `.bbl` file.
    pub fn bbl(&self) -> &[u8]
        ensures { result.now ≡ (shown self.now).bbl }
    {
        self.answers.bbl.as_slice()
    }

    /// The bytes of the `.blg` file, the log.
    pub fn blg(&self) -> &[u8]
        ensures { result.now ≡ (shown self.now).blg }
    {
        self.answers.blg.as_slice()
    }

    /// The log without the lines of files and the counts of calls.
    pub fn terse(&self) -> &[u8]
        ensures { result.now ≡ (shown self.now).terse }
    {
        self.answers.terse.as_slice()
    }

    /// 0 where the run was clean, 1 after warnings, 2 after errors, 3 after a fatal error.
    pub fn status(&self) -> u8
        ensures { result ≡ (shown self.now).status }
    {
        self.answers.status
    }
}
