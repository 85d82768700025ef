//! SORT: the entries in the order of their sort keys.

ghost use Rattle.std.specs.Prelude.{◌≡◌, ◌<◌, ◌-◌, ◌++◌, All, filter, length, map, nat_lt, IfOk};
ghost use Rattle.std.specs.List.{range_with_len};
ghost use Rattle.bt_run.specs.SortCommand.{key_at, sorted};
ghost use Rattle.bt_run.specs.inner.Cases.{sort_key};
ghost use Rattle.bt_run.specs.inner.Course.{IsArranged};
ghost use Rattle.bt_run.specs.ReadCommand.{list_order};

use bt_actions::Entry;
use bt_text::Sequence;
use std::alloc::{AllocError, Global};

/// The key of an entry: its text `sort.key$`, which is the first of its texts.
pub fn sort_key(entry: &Entry) -> &[u8]
    ensures { result.now ≡ sort_key entry.now }
{
    match entry.variables.texts.get(0) {
        Some(key) => key.as_slice(),
        None => b"",
    }
}

fn keyed_places<'a>(
    alloc: Global,
    entries: &'a [Entry],
    order: &[usize],
) -> Result<Vec<(&'a [u8], usize)>, AllocError>
    requires { All (λ n. n < length entries.now) order.now }
    ensures places { IfOk result (λ keyed. map (λ k. k.1) keyed.items ≡ order.now) }
    ensures keys { IfOk result (λ keyed. All (λ k. k.0.now ≡ key_at entries.now k.1) keyed.items) }
{
    let mut keyed = Vec::new(alloc);
    'places: for place in order {
        keyed.push((sort_key(&entries[*place]), *place))?;
    }
    Ok(keyed)
}

fn places_of(alloc: Global, keyed: &[(&[u8], usize)]) -> Result<Sequence<usize>, AllocError>
    ensures { IfOk result (λ places. places ≡ map (λ k. k.1) keyed.now) }
{
    let mut places = Sequence::new(alloc);
    'keyed: for (_, place) in keyed {
        places.push(*place)?;
    }
    Ok(places)
}

/// The places of an order that are below `count`, and then those from `old` on.
pub fn order_again(
    alloc: Global,
    order: &[usize],
    old: usize,
    count: usize,
) -> Result<Vec<usize>, AllocError>
    ensures { IfOk result (λ again. again.items
        ≡ filter (λ n. nat_lt n count) order.now ++ range_with_len old (count - old)) }
{
    order
        .iter()
        .copied()
        .filter(|place| *place < count)
        .chain(old..count)
        .collect(alloc)
}

/// The places of the entries in the order of their sort keys; those whose keys are equal stand in list order. The sort
/// starts from `order`, any order of the places: the nearer it is to the result, the less time the sort takes.
pub fn sorted_places(
    alloc: Global,
    entries: &[Entry],
    order: &[usize],
) -> Result<Sequence<usize>, AllocError>
    requires { IsArranged (length entries.now) order.now }
    ensures { IfOk result (λ order. order ≡ sorted (key_at entries.now) (list_order entries.now)) }
{
    let mut keyed = keyed_places(alloc, entries, order)?;
    keyed.sort()?;
    let order = places_of(alloc, keyed.as_slice())?;
    Ok(order)
}
