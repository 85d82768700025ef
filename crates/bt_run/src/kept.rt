//! What is kept of a run for the next one.

ghost use Rattle.std.specs.Prelude.{◌≡◌, None, [], length, map, IfOk, IfSome};
ghost use Rattle.bt_bib.specs.BibText.{pieces_of};
ghost use Rattle.bt_bib.specs.Splice.{IsSplice};
ghost use Rattle.bt_run.specs.Steps.{StepsAre};
ghost use Rattle.bt_run.specs.inner.Course.{IsArranged};
ghost use Rattle.std.specs.Option.{ForSome, option_map};
ghost use Rattle.bt_run.specs.inner.Marks.{AreMarked};
ghost use Rattle.bt_run.specs.inner.Names.{HaveDistinctNames};
ghost use Rattle.bt_run.specs.inner.Turn.{AreInTurn};
ghost use Rattle.bt_run.specs.inner.Calls.{AreCalls};
ghost use Rattle.bt_run.specs.inner.Cases.{bytes_written};
ghost use Rattle.bt_run.specs.inner.Found.{AreFoundBy};

use crate::counts::Calls;
use crate::course::Step;
use crate::kept_resolution::KeptResolution;
use crate::mark::Mark;
use crate::readings::Readings;
use crate::sort_command::order_again;
use bt_actions::Entry;
use bt_bib::{Items, Splice};
use bt_text::{Bytes, Sequence, Shared};
use std::alloc::{AllocError, Global};

/// What is kept of a run: the text of its style, if it had one, its steps, its entries, and what was read.
#[derive(Drop)]
pub struct Kept {
    pub text: Option<Shared<Bytes>>,
    pub steps: Sequence<Shared<Step>>,
    pub marks: Sequence<Mark>,
    pub entries: Sequence<Entry>,
    /// The places of these entries, in their order at the end of the run.
    pub order: Sequence<usize>,
    /// How often the steps called each built-in function, if known.
    pub calls: Option<Calls>,
    /// What READ found, in this run or an earlier one. The next run takes it.
    pub resolution: Option<KeptResolution>,
    /// Whether READ found it in this run.
    pub is_own: bool,
    /// Whether its databases are known to have the texts of the files of this run. Finding out compares all texts, so it
    /// is done only when `Run::follow` needs it.
    pub is_present: bool,
    /// How many bytes of the bibliography each step wrote.
    pub lengths: Sequence<usize>,
    /// What was read of other files than databases.
    pub readings: Readings,
    ghost true_steps: { StepsAre text steps },
    ghost marked: { AreMarked entries steps marks },
    ghost arranged: { IsArranged (length entries) order },
    ghost called: { ForSome calls (AreCalls steps) },
    ghost in_turn: { AreInTurn steps },
    ghost named: { HaveDistinctNames steps },
    ghost found: { AreFoundBy is_own resolution entries },
    ghost measured: { lengths ≡ map bytes_written steps },
}

impl Kept {
    /// Nothing. It takes no memory.
    #[tactic(auto, using(crate::proofs::OrderLemmas::arranged_none, crate::proofs::TurnLemmas::none_in_turn, crate::proofs::DistinctNameLemmas::none_named, crate::proofs::MarkLemmas::none_marked))]
    pub fn nothing(alloc: Global) -> Kept
        ensures text { result.text ≡ None }
        ensures steps { result.steps ≡ [] }
    {
        Kept {
            text: None,
            steps: Sequence::new(alloc),
            marks: Sequence::new(alloc),
            entries: Sequence::new(alloc),
            order: Sequence::new(alloc),
            calls: None,
            resolution: None,
            is_own: false,
            is_present: false,
            lengths: Sequence::new(alloc),
            readings: Readings::nothing(alloc),
        }
    }

    /// The order at the end of the run, fitted to `count` entries: places beyond them are dropped, and new ones go last.
    pub fn order_for(&self, alloc: Global, count: usize) -> Result<Vec<usize>, AllocError>
        ensures { IfOk result (λ order. IsArranged count order.items) }
    {
        let order = order_again(alloc, self.order.as_slice(), self.entries.len(), count)?;
        Ok(order)
    }

    /// The items of a text, if READ found something in a database of this text.
    pub fn items_of(&self, text: &[u8]) -> Option<&Shared<Items>>
        ensures { IfSome result (λ items. items.now ≡ pieces_of text.now) }
    {
        match &self.resolution {
            None => None,
            Some(kept) => kept.items_of(text),
        }
    }

    /// Takes note of a splice that made `text` of the text `old`. If `old` is the text of a database, the part that the
    /// splice can have changed is read, so the next run needs to read no more. After out of memory nothing has changed.
    pub fn splice(
        &mut self,
        alloc: Global,
        old: &[u8],
        text: &Shared<Bytes>,
        splice: Splice,
    ) -> Result<(), AllocError>
        requires { IsSplice old.now text.now splice.begin splice.end splice.inserted }
        ensures same_text { self.new.text ≡ self.old.text }
        ensures same_steps { self.new.steps ≡ self.old.steps }
        ensures same_present { self.new.is_present ≡ self.old.is_present }
        ensures same_texts { option_map (λ k. k.texts) self.new.resolution ≡ option_map (λ k. k.texts) self.old.resolution }
    {
        match &mut self.resolution {
            None => Ok(()),
            Some(kept) => kept.splice(alloc, old, text, splice),
        }
    }
}

/// The run before, and nothing, which takes its place if that run had another style. (A function that made
/// `nothing` itself would take long to prove, because each of its exits would drop it.)
#[derive(Clone, Copy)]
pub struct Before<'a> {
    pub kept: &'a Kept,
    pub nothing: &'a Kept,
    ghost none: { nothing.now.steps ≡ [] },
}
