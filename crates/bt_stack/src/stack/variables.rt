//! The variables of the style and of the entry, and how they get values from the stack.

ghost use Rattle.std.specs.Prelude.{◌≡◌, ◌<◌, [], pos, length, slice_get, slice_index_or, option_and_then, option_map, Some, None, if◌then◌else◌, IfOk, OnErr};
ghost use Rattle.bt_actions.specs.Assignment.{with_number, with_text};
ghost use Rattle.bt_stack.specs.Desk.{short, with_answer, with_globals, with_own};

use crate::joining::in_pool;
use crate::reading::text_value_at;
use crate::stack::Stack;
use crate::step_variables::{StepVariables, number_of, set_number, set_text, text_of};
use crate::variables_left::{ChangedVariables, VariablesLeft};
use bt_actions::Variables;
use bt_text::Shared;
use std::alloc::{AllocError, Global};
use std::mem;

/// What the step leaves of its entry's variables, if it was given some. No value is left there.
fn own_left(
    alloc: Global,
    given: Option<Shared<Variables>>,
    own: &mut StepVariables,
) -> Option<ChangedVariables>
    ensures left { result ≡ option_map
        (λ given. record { given = given; numbers = own.old.numbers; texts = own.old.texts }) given }
    ensures none { own.new.texts.items ≡ [] }
{
    match given {
        None => {
            own.texts.clear();
            None
        }
        Some(given) => Some(ChangedVariables::of(alloc, given, own)),
    }
}

impl<'a> Stack<'a> {
    /// The value of a number variable of the style, or 0 if there is no such variable.
    pub fn global_number(&self, n: usize) -> i32
        ensures { result ≡ slice_index_or self.now.globals.numbers n (pos 0) }
    {
        number_of(&self.globals.numbers, &self.globals.given.numbers, n)
    }

    /// The value of a number variable of the entry.
    pub fn own_number(&self, n: usize) -> i32
        ensures { result ≡ slice_index_or self.now.own.numbers n (pos 0) }
    {
        number_of(&self.own.numbers, &self.own.given.numbers, n)
    }

    /// Pushes the value of a text variable of the style, unless it is too long. Nothing is copied.
    #[inline(always)]
    pub fn push_global_text(&mut self, n: usize) -> Result<bool, AllocError>
        requires { length self.old.items < 1000 }
        ensures ok { IfOk result (λ done. (done, self.new)
            ≡ with_answer (short (slice_index_or self.old.globals.texts n [])) 0 self.old) }
        ensures err { OnErr result (self.new ≡ self.old) }
    {
        let given = self.globals.given;
        match text_of(&self.globals.texts, &given.texts, n) {
            None => Ok(false),
            Some(text) => {
                self.values.push(text)?;
                Ok(true)
            }
        }
    }

    /// Pushes the value of a text variable of the entry, unless it is too long.
    pub fn push_own_text(&mut self, n: usize) -> Result<bool, AllocError>
        requires { length self.old.items < 1000 }
        ensures ok { IfOk result (λ done. (done, self.new)
            ≡ with_answer (short (slice_index_or self.old.own.texts n [])) 0 self.old) }
        ensures err { OnErr result (self.new ≡ self.old) }
    {
        let given = self.own.given;
        match text_of(&self.own.texts, &given.texts, n) {
            None => Ok(false),
            Some(text) => {
                self.values.push(text)?;
                Ok(true)
            }
        }
    }

    /// Gives a number variable of the style the value `depth` places below the top, if that is a number.
    pub fn set_global_number(&mut self, n: usize, depth: usize) -> Result<bool, AllocError>
        ensures ok { IfOk result (λ done. (done, self.new) ≡ with_globals (option_and_then
            (λ v. with_number n v self.old.globals) (slice_get self.old.items depth)) self.old) }
        ensures err { OnErr result (self.new ≡ self.old) }
    {
        match self.number_at(depth) {
            None => Ok(false),
            Some(number) => {
                let count = self.globals.given.numbers.len();
                set_number(&mut self.globals.numbers, count, n, number)?;
                Ok(true)
            }
        }
    }

    /// The same of the entry.
    pub fn set_own_number(&mut self, n: usize, depth: usize) -> Result<bool, AllocError>
        ensures ok { IfOk result (λ done. (done, self.new) ≡ with_own (option_and_then
            (λ v. with_number n v self.old.own) (slice_get self.old.items depth)) self.old) }
        ensures err { OnErr result (self.new ≡ self.old) }
    {
        match self.number_at(depth) {
            None => Ok(false),
            Some(number) => {
                let count = self.own.given.numbers.len();
                set_number(&mut self.own.numbers, count, n, number)?;
                Ok(true)
            }
        }
    }

    /// Gives a text variable of the style the value `depth` places below the top, if that is a text. It is copied
    /// into the pool unless it lies there.
    pub fn set_global_text(&mut self, n: usize, depth: usize) -> Result<bool, AllocError>
        ensures ok { IfOk result (λ done. (done, self.new) ≡ with_globals (option_and_then
            (λ v. with_text n v self.old.globals) (slice_get self.old.items depth)) self.old) }
        ensures err { OnErr result (self.new ≡ self.old) }
    {
        if self.pool.len() >= self.sweep_at {
            self.sweep()?;
        }
        self.put_global_text(n, depth)
    }

    fn put_global_text(&mut self, n: usize, depth: usize) -> Result<bool, AllocError>
        ensures ok { IfOk result (λ done. (done, self.new) ≡ with_globals (option_and_then
            (λ v. with_text n v self.old.globals) (slice_get self.old.items depth)) self.old) }
        ensures err { OnErr result (self.new ≡ self.old) }
    {
        match text_value_at(&self.values, depth) {
            None => Ok(false),
            Some(text) => {
                let text = in_pool(&mut self.pool, text)?;
                let count = self.globals.given.texts.len();
                set_text(&mut self.globals.texts, count, n, text)?;
                Ok(true)
            }
        }
    }

    /// The same of the entry.
    pub fn set_own_text(&mut self, n: usize, depth: usize) -> Result<bool, AllocError>
        ensures ok { IfOk result (λ done. (done, self.new) ≡ with_own (option_and_then
            (λ v. with_text n v self.old.own) (slice_get self.old.items depth)) self.old) }
        ensures err { OnErr result (self.new ≡ self.old) }
    {
        if self.pool.len() >= self.sweep_at {
            self.sweep()?;
        }
        self.put_own_text(n, depth)
    }

    fn put_own_text(&mut self, n: usize, depth: usize) -> Result<bool, AllocError>
        ensures ok { IfOk result (λ done. (done, self.new) ≡ with_own (option_and_then
            (λ v. with_text n v self.old.own) (slice_get self.old.items depth)) self.old) }
        ensures err { OnErr result (self.new ≡ self.old) }
    {
        match text_value_at(&self.values, depth) {
            None => Ok(false),
            Some(text) => {
                let text = in_pool(&mut self.pool, text)?;
                let count = self.own.given.texts.len();
                set_text(&mut self.own.texts, count, n, text)?;
                Ok(true)
            }
        }
    }

    /// Takes the variables as they are now out of the stack, with the pool; those of the entry only if there is one. The stack
    /// is empty then. After out of memory, nothing has moved.
    pub fn variables_left(
        &mut self,
        alloc: Global,
        has_entry: bool,
    ) -> Result<VariablesLeft, AllocError>
        ensures { IfOk result (λ left.
            left ≡ (self.old.globals, if has_entry then Some self.old.own else None)) }
    {
        let globals = self.globals.given.share()?;
        let own = if has_entry {
            Some(self.own.given.share()?)
        } else {
            None
        };
        self.values.clear();
        let globals = ChangedVariables::of(alloc, globals, &mut self.globals);
        let own = own_left(alloc, own, &mut self.own);
        let pool = mem::replace(&mut self.pool, Vec::new(alloc));
        let scratch = mem::replace(&mut self.scratch, Vec::new(alloc));
        Ok(VariablesLeft::of(pool, scratch, globals, own))
    }
}
