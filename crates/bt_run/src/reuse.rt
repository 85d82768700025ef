//! What a run needs to reuse the steps of an earlier one.

ghost use Rattle.std.specs.Prelude.{◌≡◌, None, []};

use crate::index::Index;
use bt_machine::Meter;
use bt_style::{Reach, Target};
use bt_text::{Sequence, Shared};
use std::alloc::Global;

/// What is reached from a name, with this function of the entry's type or none.
#[derive(Drop)]
pub struct KnownReach {
    pub target: Target,
    pub function: Option<usize>,
    pub reach: Shared<Reach>,
}

/// How to find an earlier step that isn't at the cursor.
#[derive(Drop)]
pub struct Lookup {
    /// How often the marks were scanned.
    pub scans: usize,
    /// The places of the earlier steps by name, made after `SCANS` scans.
    pub index: Option<Index>,
}

/// What a run counts and keeps while it reuses the steps of an earlier one.
#[derive(Drop)]
pub struct Reuse {
    /// The ticks of the steps that ran.
    pub meter: Meter,
    /// How many steps ran; those that were reused don't count.
    pub ran: u128,
    /// The cursor: the place of the earlier step to try next. Once a step of the same name is found, it is the place after
    /// that step, whether that one was reused or not.
    pub next: usize,
    pub lookup: Lookup,
    /// What the names of the style reach, as far as it was computed, each once.
    pub known: Sequence<KnownReach>,
}

impl Reuse {
    /// At the beginning of a run: no step ran, and nothing is known of the style.
    pub fn begun(alloc: Global) -> Reuse
        ensures meter { result.meter ≡ 0 }
        ensures ran { result.ran ≡ 0 }
        ensures next { result.next ≡ 0 }
        ensures known { result.known ≡ [] }
        ensures index { result.lookup.index ≡ None }
    {
        Reuse {
            meter: Meter::new(),
            ran: 0,
            next: 0,
            lookup: Lookup {
                scans: 0,
                index: None,
            },
            known: Sequence::new(alloc),
        }
    }
}
