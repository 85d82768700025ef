//! What the stack does with texts that are made: joined, written, moved.

ghost use Rattle.std.specs.Prelude.{◌≡◌, ◌≤◌, ◌<◌, [], length, IfOk, OnErr};
ghost use Rattle.bt_stack.specs.Desk.{short, with_answer};
ghost use Rattle.bt_stack.specs.Tops.{joined_tops};

use crate::joining::join;
use crate::moving::{copy_made, made_size, move_made};
use crate::stack::{SWEEP_BYTES, Stack};
use crate::value::Value;
use bt_text::TEXT_BYTES;
use std::alloc::{AllocError, Global};
use std::mem;

impl<'a> Stack<'a> {
    /// Joins the two topmost values, if they are texts and not too long together. If the lower one ends the pool, it
    /// isn't copied again.
    pub fn join(&mut self) -> Result<bool, AllocError>
        ensures ok { IfOk result (λ done. (done, self.new) ≡ with_answer (joined_tops self.old.items) 2 self.old) }
        ensures few { length self.old.items ≤ 1000 }
        ensures err { OnErr result (self.new ≡ self.old) }
    {
        if self.pool.len() >= self.sweep_at {
            self.sweep()?;
        }
        self.join_tops()
    }

    fn join_tops(&mut self) -> Result<bool, AllocError>
        ensures ok { IfOk result (λ done. (done, self.new) ≡ with_answer (joined_tops self.old.items) 2 self.old) }
        ensures few { length self.old.items ≤ 1000 }
        ensures err { OnErr result (self.new ≡ self.old) }
    {
        let count = self.values.len();
        if count < 2 {
            return Ok(false);
        }
        let lower = self.values[count - 2];
        let upper = self.values[count - 1];
        match join(&mut self.pool, &mut self.scratch, lower, upper)? {
            None => Ok(false),
            Some(text) => {
                self.values[count - 2] = text;
                self.values.truncate(count - 1);
                Ok(true)
            }
        }
    }

    /// An empty buffer to write a text into, while the arguments are read where they lie. `answer_text` takes it back,
    /// so one block serves all texts, and all steps that share buffers.
    pub fn take_page(&mut self, alloc: Global) -> Vec<u8>
        ensures empty { result.items ≡ [] }
        ensures same { self.new ≡ self.old }
    {
        let mut page = mem::replace(&mut self.scratch, Vec::new(alloc));
        page.clear();
        page
    }

    /// Replaces the topmost `count` values by the text on a page, unless it is too long.
    pub fn answer_text(&mut self, count: usize, page: Vec<u8>) -> Result<bool, AllocError>
        requires some { 0 < count }
        requires there { count ≤ length self.old.items }
        ensures ok { IfOk result (λ done. (done, self.new) ≡ with_answer (short page.items) count self.old) }
        ensures few { length self.old.items ≤ 1000 }
        ensures err { OnErr result (self.new ≡ self.old) }
    {
        if self.pool.len() >= self.sweep_at {
            self.sweep()?;
        }
        self.put_text(count, page)
    }

    fn put_text(&mut self, count: usize, page: Vec<u8>) -> Result<bool, AllocError>
        requires some { 0 < count }
        requires there { count ≤ length self.old.items }
        ensures ok { IfOk result (λ done. (done, self.new) ≡ with_answer (short page.items) count self.old) }
        ensures few { length self.old.items ≤ 1000 }
        ensures err { OnErr result (self.new ≡ self.old) }
    {
        let start = self.pool.len();
        let len = page.len();
        if len > TEXT_BYTES {
            self.scratch = page;
            return Ok(false);
        }
        self.pool.extend_from_slice(&page)?;
        let place = self.values.len() - count;
        self.values[place] = Value::Made(start, len);
        self.values.truncate(place + 1);
        self.scratch = page;
        Ok(true)
    }

    /// Copies the texts in use to another pool, if together they have less than half of this one's bytes. Each value
    /// gets its own copy, even of bytes that it shares, so without this test the new pool might be larger.
    fn compact(&mut self) -> Result<(), AllocError>
        ensures { self.new ≡ self.old }
    {
        let live = made_size(&self.values)
            .saturating_add(made_size(&self.globals.texts))
            .saturating_add(made_size(&self.own.texts));
        if live < self.pool.len() / 2 {
            self.scratch.clear();
            copy_made(&self.pool, &self.values, &mut self.scratch)?;
            let first = self.scratch.len();
            copy_made(&self.pool, &self.globals.texts, &mut self.scratch)?;
            let second = self.scratch.len();
            copy_made(&self.pool, &self.own.texts, &mut self.scratch)?;
            move_made(&mut self.values, 0);
            move_made(&mut self.globals.texts, first);
            move_made(&mut self.own.texts, second);
            mem::swap(&mut self.pool, &mut self.scratch);
        }
        Ok(())
    }

    /// Compacts the pool, and puts off the next sweep until the pool has twice the bytes that it has then. So all sweeps
    /// together copy fewer bytes than the step wrote.
    #[cold]
    pub(crate) fn sweep(&mut self) -> Result<(), AllocError>
        ensures { self.new ≡ self.old }
    {
        self.compact()?;
        self.sweep_at = self.pool.len().saturating_mul(2).max(SWEEP_BYTES);
        Ok(())
    }
}
