//! A hashed table of values by names, which match without regard to case.

ghost use Rattle.std.specs.Prelude.{◌≡◌, ◌≤◌, [], length, map, ℕ, List, Some, is_some, option_copied, bytes_eq, if◌then◌else◌, IfOk, OnOk, OnErr};
ghost use Rattle.bt_text.specs.ByName.{HasRoom, at_small, known, listed, no_value, first_place, with_entry, with_value};
ghost use Rattle.bt_text.specs.CaseFolding.{folded};

use crate::case_folding::{is_ascii_lowercase, to_ascii_lowercase};
use indexmap::IndexMap;
use std::alloc::{AllocError, Global};

/// Names up to this length are folded in a buffer on the stack; few are longer.
const SHORT_NAME: usize = 64;

/// A name of at most `SHORT_NAME` bytes (64) in small letters, in a buffer.
fn folded_in<'a>(buffer: &'a mut [u8; SHORT_NAME], name: &[u8]) -> &'a [u8]
    requires { length name.now ≤ 64 }
    ensures { result.now ≡ folded name.now }
{
    let small = &mut buffer[..name.len()];
    small.copy_from_slice(name);
    small.make_ascii_lowercase();
    small
}

/// Values by names, in the order in which the names came. Names that differ in case alone are one name.
///
/// A caller that has a name in small letters asks by `get_small` and puts by `put`, which fold nothing.
#[derive(Drop)]
pub struct ByName<V> {
    /// The values by the names in small letters.
    values: IndexMap<Vec<u8>, V>,
}

impl<V: Drop> ByName<V> {
    /// No value for any name. It takes no memory.
    pub fn new(alloc: Global) -> Self
        ensures listed { listed result ≡ [] }
        ensures known { known result ≡ no_value }
    {
        ByName {
            values: IndexMap::new(alloc),
        }
    }

    /// The value of a name.
    pub fn get(&self, alloc: Global, name: &[u8]) -> Result<Option<&V>, AllocError>
        ensures { IfOk result (λ value. option_copied value ≡ known self.now name.now) }
    {
        if is_ascii_lowercase(name) {
            return Ok(self.get_small(name));
        }
        if name.len() <= SHORT_NAME {
            return Ok(self.get_small(folded_in(&mut [0; SHORT_NAME], name)));
        }
        let small = to_ascii_lowercase(alloc, name)?;
        Ok(self.get_small(small.as_slice()))
    }

    /// The value of a name in small letters.
    pub fn get_small(&self, small: &[u8]) -> Option<&V>
        ensures { option_copied result ≡ at_small self.now small.now }
    {
        self.values.get(small)
    }

    /// Whether a name has a value.
    pub fn has(&self, alloc: Global, name: &[u8]) -> Result<bool, AllocError>
        ensures { IfOk result (λ there. there ≡ is_some (known self.now name.now)) }
    {
        Ok(self.get(alloc, name)?.is_some())
    }

    fn place_small(&self, small: &[u8]) -> Option<usize>
        ensures { result ≡ first_place (λ e. bytes_eq small.now e.0) (listed self.now) }
    {
        self.values.get_index_of(small)
    }

    /// The place of a name in the order in which the names came.
    pub fn place(&self, alloc: Global, name: &[u8]) -> Result<Option<usize>, AllocError>
        ensures { IfOk result (λ place. place ≡ first_place (λ e. bytes_eq (folded name.now) e.0) (listed self.now)) }
    {
        if is_ascii_lowercase(name) {
            return Ok(self.place_small(name));
        }
        if name.len() <= SHORT_NAME {
            return Ok(self.place_small(folded_in(&mut [0; SHORT_NAME], name)));
        }
        let small = to_ascii_lowercase(alloc, name)?;
        Ok(self.place_small(small.as_slice()))
    }

    /// The values in the order in which their names came.
    pub fn values(&self) -> &[V]
        ensures { result.now ≡ map (λ e. e.1) (listed self.now) }
    {
        self.values.values().as_slice()
    }

    /// Gives a name a value, in the place of the one that it has. After out of memory the table is as before.
    pub fn insert(&mut self, alloc: Global, name: &[u8], value: V) -> Result<(), AllocError>
        ensures listed { OnOk result (listed self.new ≡ with_entry (folded name.now) value (listed self.old)) }
        ensures known { OnOk result (known self.new ≡ with_value name.now value (known self.old)) }
        ensures err { OnErr result (listed self.new ≡ listed self.old) }
    {
        let small = to_ascii_lowercase(alloc, name)?.into_vec();
        self.values.insert(small, value)?;
        Ok(())
    }

    /// Makes room for one name more. After out of memory the table is as before.
    pub fn make_room(&mut self) -> Result<(), AllocError>
        ensures same { listed self.new ≡ listed self.old }
        ensures room { OnOk result (HasRoom self.new) }
    {
        self.values.reserve(1)
    }

    /// Gives a name in small letters a value, in the place of the one that it has. The table needs room for it.
    pub fn put(&mut self, small: Vec<u8>, value: V)
        requires { HasRoom self.old }
        ensures { (other : List ℕ) → at_small self.new other
            ≡ (if bytes_eq small.items other then Some value else at_small self.old other) }
    {
        let _ = self.values.insert(small, value);
    }
}
