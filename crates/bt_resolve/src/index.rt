//! Names with their places.
//!
//! A database repeats a few names in all its entries. For a run that reads whole databases, the answers for such names are
//! at hand, each in the slot that its length, its first byte and the one in its middle give. So most look-ups hash
//! nothing. An edit looks up a few names, and compares each with all of them, since hashing all would take more time.

ghost use Rattle.std.specs.Prelude.{◌≡◌, ℕ, List, Option, IfOk, IfSome};
ghost use Rattle.bt_text.specs.ByName.{known};
ghost use Rattle.bt_resolve.specs.Names.{place_of_name};
ghost use Rattle.bt_resolve.specs.inner.Names.{AreKnown};

use bt_text::{ByName, Bytes, eq_ignore_ascii_case};
use std::alloc::{AllocError, Global};
use std::marker::Model;

/// How many slots there are: twice as many as most styles and databases have names, so few names share one.
const SLOTS: usize = 128;

/// Names that databases repeat and few styles declare.
const COMMON: &[u8] =
    b"ISBN ISSN ISSN-L doi DOI url URL isbn issn abstract acknowledgement bibdate bibsource biburl date file keywords language timestamp";

/// A name, and its place among the names of an index if it is one of them.
#[derive(Clone, Copy, Drop)]
pub struct Known<'a> {
    name: &'a [u8],
    place: Option<usize>,
}

/// Names with their places. Contracts see the names in order.
#[derive(Drop)]
pub struct Index<'a> {
    names: &'a [Bytes],
    /// The places by names; none in an index for few look-ups.
    places: Option<ByName<usize>>,
    /// What is at hand, each name in its slot; nothing in an index for few look-ups.
    slots: Vec<Known<'a>>,
}

impl<'a> Model for Index<'a> {
    ghost use Rattle.std.specs.Prelude.{◌≡◌, List, ℕ, IfSome};
    ghost use Rattle.bt_text.specs.ByName.{known};
    ghost use Rattle.bt_resolve.specs.Names.{place_of_name};
    ghost use Rattle.bt_resolve.specs.inner.Names.{AreKnown};

    ghost Value = { List (List ℕ) };

    ghost view = { λ index. index.names.now };

    ghost invariant = { λ index. IfSome index.places (λ places. known places ≡ place_of_name index.names.now)
        × AreKnown (place_of_name index.names.now) index.slots.items };
}

/// The place of the first name that matches a name.
fn place_of(names: &[Bytes], name: &[u8]) -> Option<usize>
    ensures { result ≡ place_of_name names.now name.now }
{
    'names: for place in 0..names.len() {
        if eq_ignore_ascii_case(names[place].as_slice(), name) {
            return Some(place);
        }
    }
    None
}

/// It is filled from the last name to the first, so if names match, the first one's place is kept.
fn place_table(alloc: Global, names: &[Bytes]) -> Result<ByName<usize>, AllocError>
    ensures { IfOk result (λ places. known places ≡ place_of_name names.now) }
{
    let mut places = ByName::new(alloc);
    let count = names.len();
    'names: for behind in 0..count {
        let place = count - 1 - behind;
        places.insert(alloc, names[place].as_slice(), place)?;
    }
    Ok(places)
}

/// The slot of a name. Of the names of one slot the last one has it.
fn slot_of(name: &[u8]) -> usize {
    match (name.first(), name.get(name.len() / 2)) {
        (Some(first), Some(middle)) => {
            let bytes = usize::from(*first) + usize::from(*middle) * 33;
            (bytes + name.len() % SLOTS * 7) % SLOTS
        }
        _ => 0,
    }
}

fn put_in_slot<'a>(slots: &mut Vec<&'a [u8]>, name: &'a [u8]) {
    if let Some(slot) = slots.get_mut(slot_of(name)) {
        *slot = name;
    }
}

/// Common names and these, each in its slot. A slot without a name has the empty one.
fn names_in_slots<'a>(alloc: Global, names: &'a [Bytes]) -> Result<Vec<&'a [u8]>, AllocError> {
    let mut slots = vec![in alloc; b"".as_slice(); SLOTS]?;
    'common: for name in COMMON.split(|byte| *byte == b' ') {
        put_in_slot(&mut slots, name);
    }
    'names: for name in names {
        put_in_slot(&mut slots, name.as_slice());
    }
    Ok(slots)
}

/// What is known of the names at hand, with the places of these names.
fn all_known<'a>(
    alloc: Global,
    at_hand: &[&'a [u8]],
    names: &[Bytes],
) -> Result<Vec<Known<'a>>, AllocError>
    ensures { IfOk result (λ slots. AreKnown (place_of_name names.now) slots.items) }
{
    let mut slots = Vec::with_capacity(alloc, at_hand.len())?;
    'names: for name in at_hand {
        let place = place_of(names, *name);
        slots.push(Known { name: *name, place })?;
    }
    Ok(slots)
}

/// What is known of a name, if it is at hand.
fn known_at(slots: &[Known], name: &[u8]) -> Option<Option<usize>>
    ensures { (places : List ℕ → Option ℕ) → AreKnown places slots.now
        → IfSome result (λ place. place ≡ places name.now) }
{
    match slots.get(slot_of(name)) {
        Some(known) if known.name == name => Some(known.place),
        _ => None,
    }
}

impl<'a> Index<'a> {
    /// The places of some names. Allocates nothing.
    pub fn new(alloc: Global, names: &'a [Bytes]) -> Self
        ensures { result ≡ names.now }
    {
        Index {
            names,
            places: None,
            slots: Vec::new(alloc),
        }
    }

    /// The places of some names, for many look-ups.
    pub fn for_many(alloc: Global, names: &'a [Bytes]) -> Result<Self, AllocError>
        ensures { IfOk result (λ index. index ≡ names.now) }
    {
        let at_hand = names_in_slots(alloc, names)?;
        let slots = all_known(alloc, at_hand.as_slice(), names)?;
        let places = Some(place_table(alloc, names)?);
        Ok(Index {
            names,
            places,
            slots,
        })
    }

    /// The place of a name, if it is among the names.
    pub fn place(&self, alloc: Global, name: &[u8]) -> Result<Option<usize>, AllocError>
        ensures { IfOk result (λ place. place ≡ place_of_name self.now name.now) }
    {
        if let Some(place) = known_at(self.slots.as_slice(), name) {
            return Ok(place);
        }
        match &self.places {
            None => Ok(place_of(self.names, name)),
            Some(places) => Ok(places.get(alloc, name)?.copied()),
        }
    }

    pub fn names(&self) -> &'a [Bytes]
        ensures { result.now ≡ self.now }
    {
        self.names
    }
}
