//! The places of earlier steps, found by hashing.

ghost use Rattle.std.specs.Prelude.{◌≡◌, IfOk};
ghost use Rattle.std.proofs.Common.{rules};
ghost use Rattle.std.specs.Cmp.Rules.{comparing, hashing};
ghost use Rattle.bt_run.specs.inner.Index.{key_or_none, same_name, name_writes, step_name, place_at};
ghost use Rattle.bt_run.specs.inner.Names.{IsIndex};

use crate::course::Step;
use bt_machine::Input;
use bt_text::{Bytes, Shared};
use std::alloc::{AllocError, Global};
use std::collections::HashMap;
use std::hash::{Hash, Hasher};

/// What a step is found by: the number of its command, and the key of its entry, if it is for one.
#[derive(Drop)]
pub struct StepName {
    command: usize,
    key: Option<Shared<Bytes>>,
}

impl PartialEq for StepName {
    ghost eq = { same_name };

    ghost laws = { Prim.search (comparing, rules) };

    fn eq(&self, other: &StepName) -> bool {
        self.command == other.command && self.key() == other.key()
    }
}

impl Eq for StepName {
    ghost laws = { Prim.search (comparing, rules) };
}

impl Hash for StepName {
    ghost hash_input = { name_writes };

    ghost respects_eq = { Prim.search (hashing, rules) };

    fn hash<H: Hasher>(&self, state: &mut H) {
        self.command.hash(state);
        self.key().hash(state);
    }
}

impl StepName {
    fn key(&self) -> &[u8]
        ensures { result.now ≡ key_or_none self.now.key }
    {
        match &self.key {
            None => &[],
            Some(key) => key.as_slice(),
        }
    }

    fn of(command: usize, input: &Input) -> Result<StepName, AllocError>
        ensures { IfOk result (λ name. name ≡ step_name command input.now) }
    {
        let key = match &input.entry {
            None => None,
            Some(entry) => Some(entry.key.share()?),
        };
        Ok(StepName { command, key })
    }
}

/// The place of each step, by its name.
#[derive(Drop)]
pub struct Index {
    places: HashMap<StepName, usize>,
}

impl Index {
    /// The places of these steps. The only error is out of memory.
    pub fn of(alloc: Global, steps: &[Shared<Step>]) -> Result<Index, AllocError>
        ensures { IfOk result (λ index. IsIndex steps.now index) }
    {
        let mut index = Index {
            places: HashMap::new(alloc),
        };
        'steps: for (place, step) in steps.iter().enumerate() {
            let name = StepName::of(step.command, &step.input)?;
            index.places.insert(name, place)?;
        }
        Ok(index)
    }

    /// The place of the step of this command whose input has the same key. The only error is out of memory.
    pub fn place(&self, command: usize, input: &Input) -> Result<Option<usize>, AllocError>
        ensures { IfOk result (λ place. place ≡ place_at self.now (step_name command input.now)) }
    {
        let name = StepName::of(command, input)?;
        Ok(self.places.get(&name).copied())
    }
}
