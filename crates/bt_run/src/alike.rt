//! Which entries READ found again, as far as that is known without comparing them with the previous run's.

ghost use Rattle.std.specs.Prelude.{◌≡◌, ℕ, slice_get, Some, true, IfOk, IsTrue};
ghost use Rattle.bt_run.specs.inner.Alike.{Stays, alike_after, is_known};
ghost use Rattle.bt_run.specs.inner.Earlier.{AreSame, fixed, fixed_at};

use crate::same_input::equal_fixed;
use bt_actions::Entry;
use bt_resolve::SeenEdit;
use bt_text::{Sequence, Shared};
use std::alloc::{AllocError, Global};

/// Which entries are known to be the previous run's.
#[derive(Drop)]
pub enum Alike {
    Unknown,
    All,
    /// Those at the places that have `true` here.
    Those(Shared<Sequence<bool>>),
}

fn is_true_at(flags: &[bool], place: usize) -> bool
    ensures { IsTrue result → slice_get flags.now place ≡ Some true }
{
    place < flags.len() && flags[place]
}

impl Alike {
    /// What is known after an edit of the resolution. The only error is out of memory.
    pub fn after(edit: &SeenEdit) -> Result<Alike, AllocError>
        ensures { IfOk result (λ alike. alike ≡ alike_after edit.now) }
    {
        match edit {
            SeenEdit::Same => Ok(Alike::All),
            SeenEdit::Others(others) => Ok(Alike::Those(others.stays.share()?)),
        }
    }

    /// This if `is_so`, and otherwise unknown.
    pub fn when(self, is_so: bool) -> Alike
        ensures { (n : ℕ) → Stays result n → IsTrue is_so × Stays self n }
    {
        if is_so { self } else { Alike::Unknown }
    }

    /// Whether anything is known.
    pub fn is_known(&self) -> bool
        ensures { result ≡ is_known self.now }
    {
        match self {
            Alike::Unknown => false,
            Alike::All => true,
            Alike::Those(_) => true,
        }
    }

    /// Whether the entry at a place is known to be the previous run's.
    pub fn stays(&self, place: usize) -> bool
        ensures { IsTrue result → Stays self.now place }
    {
        match self {
            Alike::Unknown => false,
            Alike::All => true,
            Alike::Those(flags) => is_true_at(flags.as_slice(), place),
        }
    }
}

/// Whether the entries at a place are the same, but for their variables. If it is known, they aren't compared.
fn is_same_at(old: &Entry, new: &Entry, place: usize, alike: &Alike) -> bool
    requires { Stays alike.now place → fixed old.now ≡ fixed new.now }
    ensures { IsTrue result → fixed old.now ≡ fixed new.now }
{
    alike.stays(place) || equal_fixed(old, new)
}

/// For each place of two lists whether the entries there are the same, but for their variables. Those that
/// are known to be aren't compared.
pub fn same_entries(
    alloc: Global,
    entries: &[Entry],
    others: &[Entry],
    alike: &Alike,
) -> Result<Sequence<bool>, AllocError>
    requires { (n : ℕ) → Stays alike.now n → fixed_at entries.now n ≡ fixed_at others.now n }
    ensures { IfOk result (λ same. AreSame entries.now others.now same) }
{
    let mut same = Sequence::new(alloc);
    let count = entries.len().min(others.len());
    'places: for place in 0..count {
        same.push(is_same_at(&entries[place], &others[place], place, alike))?;
    }
    Ok(same)
}
