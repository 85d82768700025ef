//! The heirs of a stored entry whose values change: the entry itself, and each entry that inherits from an heir.
//!
//! Only heirs are seen differently after such an edit, so only their entries are made again. An heir inherits what its
//! parent has by then, so the changed entry's parent inherits again too, and its parent, and so on. No lemma says that
//! these are enough. Instead, the code checks that the parent of each marked entry is marked. If one isn't, all entries
//! inherit again.

ghost use Rattle.std.specs.Prelude.{◌≡◌, ℕ, map, not, slice_set, true, IfOk, IsTrue, OnOk};
ghost use Rattle.std.specs.List.{slice_index_or};
ghost use Rattle.bt_resolve.specs.inner.Heirs.{AreHeirs, AreSameAt, IsClosed, IsClosedAt, MarksAll, all_heirs, heirs_at, inherits_if, is_marked, marked_at, some_inherit, stays_among};
ghost use Rattle.bt_resolve.specs.inner.Inheritance.{all_inherit};

use crate::current_values::CurrentValues;
use crate::family::Family;
use crate::inheritance::{all_inherit, inherit_at};
use crate::stored::{FieldValues, Stored};
use bt_text::{Sequence, Shared};
use std::alloc::{AllocError, Global};

/// New values of a stored entry, before it inherits.
#[derive(Drop)]
pub struct NewValues {
    /// The entry's place among the stored ones.
    pub place: usize,
    /// Its own values, before it inherits.
    pub values: Shared<FieldValues>,
}

/// What the stored entries inherit with new values of one, and which of them are its heirs.
#[derive(Drop)]
pub struct Heirs<'a> {
    pub values: CurrentValues<'a>,
    pub marks: Sequence<bool>,
}

/// Whether a place is marked. A place beyond the marks is.
pub fn is_marked(marks: &[bool], place: usize) -> bool
    ensures { result ≡ is_marked marks.now place }
{
    if place < marks.len() {
        marks[place]
    } else {
        true
    }
}

fn mark(place: usize, marks: &mut Vec<bool>)
    ensures { marks.new.items ≡ slice_set marks.old.items place true }
{
    if place < marks.len() {
        marks[place] = true;
    }
}

/// A mark for each entry. Only the one at this place is set.
fn marked_at(alloc: Global, entries: &[Stored], place: usize) -> Result<Vec<bool>, AllocError>
    ensures { IfOk result (λ marks. marks.items ≡ marked_at entries.now place) }
{
    let mut marks = vec![in alloc; false; entries.len()]?;
    mark(place, &mut marks);
    Ok(marks)
}

/// Marks the entry at a place if its parent is marked.
fn mark_heir(family: &Family, place: usize, marks: &mut Vec<bool>)
    ensures { marks.new.items ≡ heirs_at family.now marks.old.items place }
{
    let Some(parent) = family.parent_at(place) else {
        return;
    };
    if !is_marked(marks.as_slice(), parent) {
        return;
    }
    mark(place, marks);
}

/// Marks the entries of the list that inherit from marked ones.
fn mark_heirs(family: &Family, list: &[usize], marks: &mut Vec<bool>)
    ensures { marks.new.items ≡ all_heirs family.now marks.old.items list.now }
{
    'list: for place in list {
        mark_heir(family, *place, marks);
    }
}

/// Marks the parent of the entry at a place, the parent's parent, and so on, up to one that is marked already.
fn mark_forebears(family: &Family, place: usize, marks: &mut Vec<bool>)
    ensures { MarksAll marks.old.items marks.new.items }
{
    let count = marks.len();
    let mut child = place;
    'chain: for _step in 0..count {
        let Some(parent) = family.parent_at(child) else {
            return;
        };
        if parent >= count || is_marked(marks.as_slice(), parent) {
            return;
        }
        mark(parent, marks);
        child = parent;
    }
}

/// The marks of the heirs, with those entries marked too that must inherit before them.
fn needed_for(
    alloc: Global,
    family: &Family,
    place: usize,
    heirs: &[bool],
) -> Result<Vec<bool>, AllocError>
    ensures { IfOk result (λ needed. MarksAll heirs.now needed.items) }
{
    let mut needed = Vec::new(alloc);
    needed.extend_from_slice(heirs)?;
    mark_forebears(family, place, &mut needed);
    Ok(needed)
}

/// Whether the entry at a place is unmarked, or has a marked parent or none.
fn is_closed_at(family: &Family, marks: &[bool], place: usize) -> bool
    ensures { IsTrue result → IsClosedAt family.now marks.now place }
{
    if !is_marked(marks, place) {
        return true;
    }
    match family.parent_at(place) {
        None => true,
        Some(parent) => is_marked(marks, parent),
    }
}

fn is_closed(family: &Family, marks: &[bool], list: &[usize]) -> bool
    ensures { IsTrue result → IsClosed family.now marks.now list.now }
{
    'list: for k in 0..list.len() {
        if !is_closed_at(family, marks, list[k]) {
            return false;
        }
    }
    true
}

fn inherit_if(
    alloc: Global,
    family: &Family,
    is_needed: bool,
    place: usize,
    values: &mut CurrentValues<'_>,
) -> Result<(), AllocError>
    ensures { OnOk result (values.new ≡ inherits_if is_needed family.now values.old place) }
{
    if is_needed {
        inherit_at(alloc, family, place, values)
    } else {
        Ok(())
    }
}

/// Lets the marked entries of a list inherit, one after another.
fn some_inherit(
    alloc: Global,
    family: &Family,
    marks: &[bool],
    list: &[usize],
    values: &mut CurrentValues<'_>,
) -> Result<(), AllocError>
    ensures { OnOk result (values.new ≡ some_inherit family.now marks.now values.old list.now) }
{
    'list: for place in list {
        inherit_if(alloc, family, is_marked(marks, *place), *place, values)?;
    }
    Ok(())
}

/// Lets the marked entries of a list inherit, and others only if a marked entry's parent isn't marked.
fn needed_inherit(
    alloc: Global,
    family: &Family,
    marks: &[bool],
    list: &[usize],
    values: &mut CurrentValues<'_>,
) -> Result<(), AllocError>
    ensures { OnOk result (AreSameAt marks.now values.new (all_inherit family.now values.old list.now)) }
{
    if is_closed(family, marks, list) {
        some_inherit(alloc, family, marks, list, values)?;
    } else {
        all_inherit(alloc, family, list, values)?;
    }
    Ok(())
}

/// The values of all entries, with new ones of one.
fn values_with<'a>(
    alloc: Global,
    values: &'a [Shared<FieldValues>],
    new: &NewValues,
) -> Result<CurrentValues<'a>, AllocError>
    ensures { IfOk result (λ all. all ≡ slice_set values.now new.now.place new.now.values) }
{
    let mut all = CurrentValues::new(alloc, values)?;
    all.replace(new.place, new.values.share()?);
    Ok(all)
}

/// The heirs of the entry that has new values, with what they inherit then. Only the values at marked places count.
/// `list` has the places of the list, and `values` the entries' own values before.
pub fn heirs_of<'a>(
    alloc: Global,
    family: &Family,
    list: &[usize],
    values: &'a [Shared<FieldValues>],
    new: &NewValues,
) -> Result<Heirs<'a>, AllocError>
    ensures { IfOk result (λ heirs. AreHeirs family.now list.now values.now new.now heirs) }
{
    let mut marks = marked_at(alloc, family.entries(), new.place)?;
    mark_heirs(family, list, &mut marks);
    let mut values = values_with(alloc, values, new)?;
    let needed = needed_for(alloc, family, new.place, marks.as_slice())?;
    needed_inherit(alloc, family, needed.as_slice(), list, &mut values)?;
    Ok(Heirs {
        values,
        marks: Sequence::from_vec(marks),
    })
}

/// For each of some places whether it isn't marked.
pub fn stays_among(
    alloc: Global,
    marks: &[bool],
    places: &[usize],
) -> Result<Shared<Sequence<bool>>, AllocError>
    ensures { IfOk result (λ stays. stays ≡ stays_among marks.now places.now) }
{
    let mut stays = Sequence::new(alloc);
    'places: for place in places {
        stays.push(!is_marked(marks, *place))?;
    }
    Shared::new(alloc, stays)
}
