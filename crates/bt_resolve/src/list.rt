//! The list of entries, by their places among the stored ones.
//!
//! Each entry is listed only if the list doesn't have it already. A set of the listed places answers that, since
//! searching the list would take quadratic time.

ghost use Rattle.std.specs.Prelude.{◌≡◌, ◌≤◌, ◌==◌, ◌++◌, ◌∷◌, [], ℕ, true, cond, filter, if◌then◌else◌, length, nat_eq, not, IfOk, IfSome, OnOk};
ghost use Rattle.std.specs.HashSet.{contains};
ghost use Rattle.std.specs.List.{filter_map};
ghost use Rattle.bt_resolve.specs.Listed.{firsts, is_among, is_cited_at, listed, uncited_parents};
ghost use Rattle.bt_resolve.specs.inner.Cases.{cited_places, others_than, parents};

use crate::asked::Asked;
use crate::family::Family;
use bt_text::{Bytes, NameList};
use std::alloc::{AllocError, Global};
use std::collections::HashSet;

/// Whether the entry at a place is cited.
pub fn is_cited_at(
    alloc: Global,
    keys: &NameList,
    family: &Family,
    place: usize,
) -> Result<bool, AllocError>
    ensures { IfOk result (λ cited. cited ≡ is_cited_at keys.now family.now place) }
{
    match family.entries().get(place) {
        None => Ok(false),
        Some(entry) => keys.has(alloc, entry.key.as_slice()),
    }
}

fn cited_places(alloc: Global, keys: &[Bytes], family: &Family) -> Result<Vec<usize>, AllocError>
    ensures { IfOk result (λ places. places.items ≡ cited_places keys.now family.now) }
{
    let mut places = Vec::new(alloc);
    'keys: for key in keys {
        if let Some(place) = family.place(alloc, key.as_slice())? {
            places.push(place)?;
        }
    }
    Ok(places)
}

fn known_places(alloc: Global, places: &[Option<usize>]) -> Result<Vec<usize>, AllocError>
    ensures { IfOk result (λ known. known.items ≡ filter_map (λ place. place) places.now) }
{
    places.iter().filter_map(|place| *place).collect(alloc)
}

fn parents(alloc: Global, family: &Family) -> Result<Vec<usize>, AllocError>
    ensures { IfOk result (λ places. places.items ≡ parents family.now) }
{
    known_places(alloc, family.parents())
}

fn uncited(
    alloc: Global,
    keys: &NameList,
    family: &Family,
    places: &[usize],
) -> Result<Vec<usize>, AllocError>
    ensures { IfOk result (λ found. found.items
        ≡ filter (λ p. not (is_cited_at keys.now family.now p)) places.now) }
{
    let mut found = Vec::new(alloc);
    'places: for place in places {
        if !is_cited_at(alloc, keys, family, *place)? {
            found.push(*place)?;
        }
    }
    Ok(found)
}

/// Puts a place into a set, and returns whether it is new there.
fn insert_place(set: &mut HashSet<usize>, place: usize) -> Result<bool, AllocError>
    ensures new { IfOk result (λ new. new ≡ not (contains nat_eq set.old place)) }
    ensures set { OnOk result ((p : ℕ) → contains nat_eq set.new p
        ≡ cond (place == p) true (contains nat_eq set.old p)) }
{
    Ok(set.insert(place)?)
}

fn add_first(
    place: usize,
    seen: &mut HashSet<usize>,
    found: &mut Vec<usize>,
) -> Result<(), AllocError>
    ensures seen { OnOk result ((p : ℕ) → contains nat_eq seen.new p
        ≡ cond (place == p) true (contains nat_eq seen.old p)) }
    ensures found { OnOk result (found.new.items ≡ found.old.items
        ++ (if contains nat_eq seen.old place then [] else place ∷ [])) }
{
    if insert_place(seen, place)? {
        found.push(place)?;
        Ok(())
    } else {
        Ok(())
    }
}

fn firsts(alloc: Global, places: &[usize]) -> Result<Vec<usize>, AllocError>
    ensures { IfOk result (λ found. found.items ≡ firsts [] places.now) }
{
    let mut found = Vec::new(alloc);
    let mut seen = HashSet::new(alloc);
    'places: for place in places {
        add_first(*place, &mut seen, &mut found)?;
    }
    Ok(found)
}

fn uncited_parents(
    alloc: Global,
    keys: &NameList,
    family: &Family,
) -> Result<Vec<usize>, AllocError>
    ensures { IfOk result (λ found. found.items ≡ uncited_parents keys.now family.now) }
{
    let parents = parents(alloc, family)?;
    let uncited = uncited(alloc, keys, family, parents.as_slice())?;
    firsts(alloc, uncited.as_slice())
}

fn place_set(alloc: Global, places: &[usize]) -> Result<HashSet<usize>, AllocError>
    ensures { IfOk result (λ set. (p : ℕ) → contains nat_eq set p ≡ is_among places.now p) }
{
    let mut set = HashSet::new(alloc);
    'places: for place in places {
        insert_place(&mut set, *place)?;
    }
    Ok(set)
}

fn others_than(alloc: Global, these: &[usize], family: &Family) -> Result<Vec<usize>, AllocError>
    ensures { IfOk result (λ found. found.items ≡ others_than these.now family.now) }
{
    let set = place_set(alloc, these)?;
    (0..family.entries().len())
        .filter(|place| !set.contains(place))
        .collect(alloc)
}

/// The list: the cited entries, then those that entries refer to or, with `*`, all others.
#[tactic(auto, unfolding(crate::specs::Listed::listed))]
pub fn listed(alloc: Global, asked: &Asked<'_>, family: &Family) -> Result<Vec<usize>, AllocError>
    requires { IfSome asked.now.star (λ before. before ≤ length asked.now.keys) }
    ensures { IfOk result (λ places. places.items ≡ listed asked.now family.now) }
{
    let keys = asked.keys.as_slice();
    match asked.star {
        None => {
            let mut places = cited_places(alloc, keys, family)?;
            let parents = uncited_parents(alloc, &asked.keys, family)?;
            places.extend_from_slice(parents.as_slice())?;
            Ok(places)
        }
        Some(before) => {
            let mut places = cited_places(alloc, &keys[..before], family)?;
            let others = others_than(alloc, places.as_slice(), family)?;
            places.extend_from_slice(others.as_slice())?;
            Ok(places)
        }
    }
}
