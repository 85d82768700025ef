//! A list of names, which match without regard to case and are found by hashing.

ghost use Rattle.std.specs.Prelude.{◌≡◌, ◌++◌, ◌∷◌, [], None, option_copied, IfOk, OnOk, OnErr};
ghost use Rattle.bt_text.specs.NameList.{has_name, same_name};

use crate::by_name::ByName;
use crate::bytes::Bytes;
use std::alloc::{AllocError, Global};
use std::marker::Model;

/// Names of which no two match, in their order. Contracts see the list of them.
#[derive(Drop)]
pub struct NameList {
    spelled: ByName<Bytes>,
}

impl Model for NameList {
    ghost use Rattle.std.specs.Prelude.{◌≡◌, List, ℕ, map};
    ghost use Rattle.bt_text.specs.ByName.{listed, by_small};

    ghost Value = { List (List ℕ) };

    ghost view = { λ n. map (λ e. e.1) (listed n.spelled) };

    ghost invariant = { λ n. listed n.spelled ≡ by_small (λ name. name) (map (λ e. e.1) (listed n.spelled)) };
}

impl NameList {
    /// No names. They take no memory.
    pub fn new(alloc: Global) -> Self
        ensures { result ≡ [] }
    {
        NameList {
            spelled: ByName::new(alloc),
        }
    }

    /// The names.
    pub fn as_slice(&self) -> &[Bytes]
        ensures { result.now ≡ self.now }
    {
        self.spelled.values()
    }

    /// Whether a name is among the names.
    pub fn has(&self, alloc: Global, name: &[u8]) -> Result<bool, AllocError>
        ensures { IfOk result (λ among. among ≡ has_name self.now name.now) }
    {
        self.spelled.has(alloc, name)
    }

    /// The name that matches a name, as it was spelled first.
    pub fn find(&self, alloc: Global, name: &[u8]) -> Result<Option<&Bytes>, AllocError>
        ensures { IfOk result (λ found. option_copied found ≡ same_name name.now self.now) }
    {
        self.spelled.get(alloc, name)
    }

    /// Puts a name at the end that matches none of them. After out of memory the names are as before.
    pub fn push(&mut self, alloc: Global, name: &[u8]) -> Result<(), AllocError>
        requires { same_name name.now self.old ≡ None }
        ensures ok { OnOk result (self.new ≡ self.old ++ name.now ∷ []) }
        ensures err { OnErr result (self.new ≡ self.old) }
    {
        let spelling = Bytes::copied(alloc, name)?;
        self.spelled.insert(alloc, name, spelling)
    }
}
