//! What entries inherit from those that they refer to.
//!
//! Entries inherit in the order of the list, each from its parent as it is at that time. A parent that comes later in
//! the list hasn't inherited yet, so its child doesn't get the grandparent's values. Therefore the values of all
//! entries are kept in one list, and an entry's values are replaced when its turn comes.

ghost use Rattle.std.specs.Prelude.{◌≡◌, IfOk, OnOk};
ghost use Rattle.bt_resolve.specs.Inherited.{inherited};
ghost use Rattle.bt_resolve.specs.inner.Inheritance.{all_inherit, inherits_at, values_read};

use crate::current_values::CurrentValues;
use crate::family::Family;
use crate::stored::{FieldValues, Stored};
use bt_text::{Excerpt, Shared};
use std::alloc::{AllocError, Global};

/// A value that may be missing, shared.
pub fn shared(value: &Option<Excerpt>) -> Result<Option<Excerpt>, AllocError>
    ensures { IfOk result (λ same. same ≡ value.now) }
{
    match value {
        None => Ok(None),
        Some(text) => Ok(Some(text.share()?)),
    }
}

/// An entry's values, each missing one taken from the parent. An entry without values of its own shares the parent's
/// list.
fn inherited(
    alloc: Global,
    mine: &Shared<FieldValues>,
    theirs: &Shared<FieldValues>,
) -> Result<Shared<FieldValues>, AllocError>
    ensures { IfOk result (λ values. values ≡ inherited mine.now theirs.now) }
{
    if mine.has_none() && mine.len() == theirs.len() {
        theirs.share()
    } else {
        Shared::new(alloc, mine.filled_from(alloc, theirs)?)
    }
}

/// The values of all entries, as they were read.
pub fn values_read(alloc: Global, stored: &[Stored]) -> Result<Vec<Shared<FieldValues>>, AllocError>
    ensures { IfOk result (λ values. values.items ≡ values_read stored.now) }
{
    let mut values = Vec::new(alloc);
    'entries: for entry in stored {
        values.push(entry.values.share()?)?;
    }
    Ok(values)
}

/// Lets the entry at a place inherit from its parent, as the parent is now.
pub fn inherit_at(
    alloc: Global,
    family: &Family,
    place: usize,
    values: &mut CurrentValues<'_>,
) -> Result<(), AllocError>
    ensures { OnOk result (values.new ≡ inherits_at family.now values.old place) }
{
    let Some(parent) = family.parent_at(place) else {
        return Ok(());
    };
    let mine = values.at(place)?;
    let theirs = values.at(parent)?;
    values.replace(place, inherited(alloc, &mine, &theirs)?);
    Ok(())
}

/// Lets the entries at some places inherit, one after another.
pub fn all_inherit(
    alloc: Global,
    family: &Family,
    places: &[usize],
    values: &mut CurrentValues<'_>,
) -> Result<(), AllocError>
    ensures { OnOk result (values.new ≡ all_inherit family.now values.old places.now) }
{
    'places: for place in places {
        inherit_at(alloc, family, *place, values)?;
    }
    Ok(())
}
