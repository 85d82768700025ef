//! The values of an entry as the style sees them: shared with the entry's own, with `crossref` in its place.
//!
//! Steps of the style share a list of values, and so do a parent and its children without values of their own. A list
//! is copied only if `crossref` changes it.

ghost use Rattle.std.specs.Prelude.{◌≡◌, [], true, slice_set, None, IfOk};
ghost use Rattle.std.specs.List.{slice_index_or};

use crate::stored::FieldValues;
use bt_text::{Excerpt, Shared, SparseTexts};
use std::alloc::{AllocError, Global};

/// The values of the entry at a place, shared.
pub fn shared_at(
    alloc: Global,
    values: &[Shared<FieldValues>],
    place: usize,
) -> Result<Shared<FieldValues>, AllocError>
    ensures { IfOk result (λ same. same ≡ slice_index_or values.now place []) }
{
    if place < values.len() {
        values[place].share()
    } else {
        Shared::new(alloc, SparseTexts::new(alloc, 0))
    }
}

/// Whether the value at an index is missing already, or the index is out of range.
fn is_missing(values: &FieldValues, place: usize) -> bool
    ensures { result ≡ true → slice_set values.now place None ≡ values.now }
{
    values.get(place).is_none()
}

/// The values, with the value of `crossref` in its place. They are shared if nothing changes.
pub fn put_crossref(
    alloc: Global,
    place: usize,
    name: Option<Excerpt>,
    values: Shared<FieldValues>,
) -> Result<Shared<FieldValues>, AllocError>
    ensures { IfOk result (λ all. all ≡ slice_set values place name) }
{
    if name.is_none() && is_missing(&values, place) {
        return Ok(values);
    }
    let mut all = values.copied(alloc)?;
    all.set(place, name)?;
    Shared::new(alloc, all)
}
