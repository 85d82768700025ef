//! The stored entries' values while they inherit: the old ones, borrowed, with replacements for some. So an unchanged entry
//! costs no copy.

ghost use Rattle.std.specs.Prelude.{◌≡◌, [], None, replicate, slice_set, IfOk};
ghost use Rattle.std.specs.List.{slice_index_or};

use crate::seen_values::shared_at;
use crate::stored::FieldValues;
use bt_text::{Sequence, Shared};
use std::alloc::{AllocError, Global};
use std::marker::Model;

/// Contracts see the values of all entries as they are now.
#[derive(Drop)]
pub struct CurrentValues<'a> {
    alloc: Global,
    before: &'a [Shared<FieldValues>],
    since: Sequence<Option<Shared<FieldValues>>>,
}

impl<'a> Model for CurrentValues<'a> {
    ghost use Rattle.std.specs.Prelude.{◌≡◌, List, Option, ℕ, length};
    ghost use Rattle.bt_resolve.specs.inner.CurrentValues.{current};

    ghost Value = { List (List (Option (List ℕ))) };

    ghost view = { λ values. current values.before.now values.since };

    ghost invariant = { λ values. length values.since ≡ length values.before.now };
}

fn nothing_since(
    alloc: Global,
    count: usize,
) -> Result<Sequence<Option<Shared<FieldValues>>>, AllocError>
    ensures { IfOk result (λ since. since ≡ replicate count None) }
{
    let mut since = Sequence::new(alloc);
    since.reserve(count)?;
    'entries: for _entry in 0..count {
        since.push(None)?;
    }
    Ok(since)
}

impl<'a> CurrentValues<'a> {
    /// The values as they are before any changes.
    pub fn new(
        alloc: Global,
        before: &'a [Shared<FieldValues>],
    ) -> Result<CurrentValues<'a>, AllocError>
        ensures { IfOk result (λ values. values ≡ before.now) }
    {
        let since = nothing_since(alloc, before.len())?;
        Ok(CurrentValues {
            alloc,
            before,
            since,
        })
    }

    /// The values of the entry at a place, shared.
    pub fn at(&self, place: usize) -> Result<Shared<FieldValues>, AllocError>
        ensures { IfOk result (λ same. same ≡ slice_index_or self.now place []) }
    {
        let Some(since) = self.since.as_slice().get(place) else {
            return shared_at(self.alloc, self.before, place);
        };
        match since {
            Some(values) => values.share(),
            None => shared_at(self.alloc, self.before, place),
        }
    }

    /// Replaces the values of the entry at a place. Without such an entry it does nothing.
    pub fn replace(&mut self, place: usize, values: Shared<FieldValues>)
        ensures { self.new ≡ slice_set self.old place values }
    {
        if place < self.since.len() {
            self.since.set(place, Some(values));
        }
    }
}
