//! The walk over the kept steps of the old run.

ghost use Rattle.std.specs.Prelude.{◌≡◌, ◌<◌, [], true, false, All, IfOk, IfSome, IsTrue, Some, bytes_eq, length};
ghost use Rattle.std.specs.Option.{ForSome};
ghost use Rattle.bt_text.specs.NameList.{are_apart};
ghost use Rattle.bt_resolve.specs.inner.Kept.{resolved_for};
ghost use Rattle.bt_style.specs.Program.{program_of};
ghost use Rattle.bt_run.specs.Work.{IsStep};
ghost use Rattle.bt_run.specs.inner.Beside.{HasKey};
ghost use Rattle.bt_run.specs.inner.Walk.{IsWalkFrom, IsWalkThroughIn};

use crate::changed_entry::ChangedEntry;
use crate::kept::Kept;
use crate::kept_resolution::KeptResolution;
use crate::read_command::blank_entry;
use crate::start::first_globals;
use crate::walk::Walk;
use crate::walk_context::{WalkContext, read_number};
use bt_style::Style;
use bt_text::equal_bytes;
use std::alloc::{AllocError, Global};

/// The steps of the new run, and the place of the changed entry.
#[derive(Drop)]
pub struct PlacedWalk {
    pub place: usize,
    pub walk: Walk,
}

/// A walk past all steps. None if a whole run must begin.
fn whole_walk(context: WalkContext<'_>) -> Result<Option<Walk>, AllocError>
    ensures { IfOk result (λ found. IfSome found (IsWalkThroughIn context.entry)) }
{
    let globals = first_globals(context.alloc, context.style)?;
    let Some(mut walk) = Walk::begun(context, globals)? else {
        return Ok(None);
    };
    match walk.pass_all(context) {
        Ok(true) => Ok(Some(walk)),
        Ok(false) => {
            drop(walk);
            Ok(None)
        }
        Err(error) => {
            drop(walk);
            Err(error)
        }
    }
}

impl Kept {
    /// Whether the entry at a place has this key, which isn't empty, and READ found as many entries as there are. (No other
    /// entry has the key, because cited keys differ.)
    fn is_only_of_key(&self, found: &KeptResolution, place: usize, key: &[u8]) -> bool
        requires is { self.now.resolution ≡ Some found.now }
        requires own { IsTrue self.now.is_own }
        requires apart { IsTrue (are_apart found.now.resolution.cites.keys) }
        ensures counted { IsTrue result → length (resolved_for found.now.resolution).entries ≡ length self.now.entries }
        ensures within { IsTrue result → place < length self.now.entries }
        ensures keyed { IsTrue result → HasKey place key.now self.now.entries }
        ensures some { IsTrue result → bytes_eq [] key.now ≡ false }
    {
        let entries = self.entries.as_slice();
        let found = found.resolution.resolved().entries.as_slice();
        if found.len() != entries.len() || place >= entries.len() || key.is_empty() {
            return false;
        }
        let entry = &entries[place];
        equal_bytes(entry.key.as_slice(), key)
    }

    /// The steps of the new run and the place of the changed entry. None if a whole run must begin.
    pub(crate) fn walk(
        &self,
        alloc: Global,
        style: &Style,
    ) -> Result<Option<PlacedWalk>, AllocError>
        requires steps { All (IsStep (program_of style.now)) self.now.steps }
        requires own { IsTrue self.now.is_own }
        requires apart { ForSome self.now.resolution (λ k. IsTrue (are_apart k.resolution.cites.keys)) }
        ensures { IfOk result (λ found. IfSome found (λ made.
            IsWalkFrom (program_of style.now) self.now made.place made.walk)) }
    {
        let Some(kept) = &self.resolution else {
            return Ok(None);
        };
        let Some(other) = kept.changed_entry() else {
            return Ok(None);
        };
        let ChangedEntry { place, entry } = other;
        let Some(read) = read_number(style.commands.as_slice()) else {
            return Ok(None);
        };
        let key = entry.key.as_slice();
        if !self.is_only_of_key(kept, place, key) {
            return Ok(None);
        }
        let first = blank_entry(alloc, style, entry)?;
        let context = WalkContext {
            alloc,
            style,
            earlier: self,
            read,
            place,
            key,
            first: &first,
        };
        let Some(walk) = whole_walk(context)? else {
            return Ok(None);
        };
        Ok(Some(PlacedWalk { place, walk }))
    }
}
