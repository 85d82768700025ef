//! What is known of values on one path through a style.
//!
//! A value never changes (only variables do), so what a branch learns of a value holds for the rest of the step.

use crate::values::Value;
use bt_known::{Known, NOTHING};
use std::alloc::{AllocError, Global};

/// That a value is (or isn't) above 0. Of a choice more may follow once its test is decided.
#[derive(Clone, Copy, PartialEq, Eq)]
pub struct Assumed {
    pub value: Value,
    pub truth: bool,
}

fn differs(ours: Option<bool>, theirs: Option<bool>) -> bool {
    ours.is_some() && theirs.is_some() && ours != theirs
}

pub struct Facts {
    /// The values of which something is known, in their order.
    values: Vec<Value>,
    known: Vec<Known>,
    pub assumed: Vec<Assumed>,
}

/// Written out, since a function that drops facts by one call is proved sooner than one that drops each part.
impl Drop for Facts {
    fn drop(self) {
        let Facts {
            values: _values,
            known: _known,
            assumed: _assumed,
        } = self;
    }
}

/// What is known on two paths that meet.
#[derive(Clone, Copy)]
pub struct Meeting<'f> {
    pub ours: &'f Facts,
    pub theirs: &'f Facts,
}

impl Facts {
    pub fn new(alloc: Global) -> Facts {
        Facts {
            values: Vec::new(alloc),
            known: Vec::new(alloc),
            assumed: Vec::new(alloc),
        }
    }

    pub fn copied(&self, alloc: Global) -> Result<Facts, AllocError> {
        Ok(Facts {
            values: Vec::from_slice(alloc, self.values.as_slice())?,
            known: Vec::from_slice(alloc, self.known.as_slice())?,
            assumed: Vec::from_slice(alloc, self.assumed.as_slice())?,
        })
    }

    pub fn of(&self, value: Value) -> Known {
        match self.values.binary_search(&value) {
            Ok(place) => self.known.get(place).copied().unwrap_or(NOTHING),
            Err(_) => NOTHING,
        }
    }

    pub fn truth(&self, value: Value) -> Option<bool> {
        self.of(value).truth
    }

    pub fn put(&mut self, value: Value, known: Known) -> Result<(), AllocError> {
        match self.values.binary_search(&value) {
            Ok(place) => {
                if let Some(old) = self.known.get_mut(place) {
                    let age = old.age;
                    *old = known;
                    old.age = age;
                }
            }
            Err(place) => {
                if place <= self.known.len() {
                    let mut known = known;
                    known.age = self.known.len();
                    self.known.insert(place, known)?;
                    self.values.insert(place, value)?;
                }
            }
        }
        Ok(())
    }

    pub fn put_truth(&mut self, value: Value, truth: bool) -> Result<(), AllocError> {
        let mut known = self.of(value);
        known.truth = Some(truth);
        self.put(value, known)
    }

    pub fn assume(&mut self, value: Value, truth: bool) -> Result<(), AllocError> {
        Ok(self.assumed.push(Assumed { value, truth })?)
    }

    pub fn forget(&mut self, assumed: Assumed) {
        self.assumed.retain(|one| *one != assumed);
    }

    pub fn joined(&self, other: &Facts, alloc: Global) -> Result<Facts, AllocError> {
        let mut both = Facts::new(alloc);
        for (value, known) in self.values.iter().zip(self.known.iter()) {
            let common = known.joined(other.of(*value));
            if !common.says_nothing() {
                both.values.push(*value)?;
                both.known.push(common)?;
            }
        }
        for assumed in &self.assumed {
            if other.assumed.contains(assumed) {
                both.assumed.push(*assumed)?;
            }
        }
        Ok(both)
    }

    /// The value that has been known longest to be above 0 by one of the two and not by the other, if there is one.
    pub fn difference(&self, other: &Facts) -> Option<Value> {
        let mut found = None;
        let mut best = usize::MAX;
        for (value, known) in self.values.iter().zip(self.known.iter()) {
            if known.age < best && differs(known.truth, other.truth(*value)) {
                found = Some(*value);
                best = known.age;
            }
        }
        found
    }

    pub fn is_same(&self, other: &Facts) -> bool {
        self.values.as_slice() == other.values.as_slice()
            && self.known.as_slice() == other.known.as_slice()
            && self.assumed.as_slice() == other.assumed.as_slice()
    }
}
