//! Buffers that the steps of a run use one after another.
//!
//! Allocating its buffers took a third of a short step's time. So a step gives them back, and the next one uses them. They
//! are emptied first, or by each user before it writes (`scratch`), so no step sees anything of another. A very
//! large buffer is freed. The stack's values have a vector of their own in each step, because they may borrow
//! from its input.

ghost use Rattle.std.specs.Prelude.{◌≡◌, []};

use crate::value::Value;
use std::alloc::Global;
use std::marker::Model;
use std::mem;

/// A larger buffer is freed after its step, so that one step doesn't hold its memory until the run ends. This is sixteen
/// strings of the greatest length.
const MOST_KEPT_BYTES: usize = 1_048_576;

/// The memory of a buffer, without its elements. It leaves a buffer without memory.
fn emptied<T: Drop>(alloc: Global, buffer: &mut Vec<T>) -> Vec<T>
    ensures { result.items ≡ [] }
{
    let mut emptied = mem::replace(buffer, Vec::new(alloc));
    emptied.clear();
    emptied
}

/// Buffers for the variables that a step changes: those of the style or those of its entry. Contracts see nothing of them.
#[derive(Drop)]
pub struct VariableBuffers {
    numbers: Vec<Option<i32>>,
    texts: Vec<Value<'static>>,
}

impl Model for VariableBuffers {
    ghost Value = { Unit {0} };

    ghost view = { λ buffers. tt };
}

impl VariableBuffers {
    fn new(alloc: Global) -> Self {
        VariableBuffers {
            numbers: Vec::new(alloc),
            texts: Vec::new(alloc),
        }
    }

    /// A buffer for numbers. It is empty.
    pub(crate) fn take_numbers(&mut self, alloc: Global) -> Vec<Option<i32>>
        ensures { result.items ≡ [] }
    {
        emptied(alloc, &mut self.numbers)
    }

    /// A buffer for texts. It is empty.
    pub(crate) fn take_texts(&mut self, alloc: Global) -> Vec<Value<'static>>
        ensures { result.items ≡ [] }
    {
        emptied(alloc, &mut self.texts)
    }

    /// Takes buffers back.
    pub(crate) fn put_back(&mut self, numbers: Vec<Option<i32>>, texts: Vec<Value<'static>>) {
        self.numbers = numbers;
        self.texts = texts;
    }
}

/// Buffers for a step. Contracts see nothing of them.
#[derive(Drop)]
pub struct StepBuffers {
    pool: Vec<u8>,
    scratch: Vec<u8>,
    /// For the variables of the style.
    pub(crate) globals: VariableBuffers,
    /// For those of the entry.
    pub(crate) own: VariableBuffers,
}

impl Model for StepBuffers {
    ghost Value = { Unit {0} };

    ghost view = { λ buffers. tt };
}

impl StepBuffers {
    /// Buffers that take no memory yet.
    pub fn new(alloc: Global) -> Self {
        StepBuffers {
            pool: Vec::new(alloc),
            scratch: Vec::new(alloc),
            globals: VariableBuffers::new(alloc),
            own: VariableBuffers::new(alloc),
        }
    }

    /// A buffer for the texts that the step makes. It is empty.
    pub(crate) fn take_pool(&mut self, alloc: Global) -> Vec<u8>
        ensures { result.items ≡ [] }
    {
        emptied(alloc, &mut self.pool)
    }

    /// A buffer for bytes on their way into the pool. It may hold old bytes.
    pub(crate) fn take_scratch(&mut self, alloc: Global) -> Vec<u8> {
        mem::replace(&mut self.scratch, Vec::new(alloc))
    }

    /// Takes back the pool and `scratch`, and frees one that is larger than `MOST_KEPT_BYTES`.
    pub(crate) fn put_back(&mut self, pool: Vec<u8>, scratch: Vec<u8>) {
        if pool.capacity() <= MOST_KEPT_BYTES {
            self.pool = pool;
        }
        if scratch.capacity() <= MOST_KEPT_BYTES {
            self.scratch = scratch;
        }
    }
}
