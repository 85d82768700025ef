//! The literal stack of a step, the step's variables, and the pool with the texts that the step made.
//!
//! A text in the pool is a range of it. Bytes are only added to the pool, so a range stays valid, and `duplicate$` copies a
//! range and no bytes. `:=` first copies a text from elsewhere into the pool. So no text of a variable borrows from the
//! step's input, and the next step can reuse the buffers. Only a sweep moves texts, with all ranges at once. No caller sees
//! a range; contracts speak of the items and the variables as if each owned its text.

ghost use Rattle.std.specs.Prelude.{◌≡◌, ◌≤◌, ◌<◌, [], ◌∷◌, length, drop, slice_get, option_copied, option_map, option_and_then, IfSome, IfOk, OnOk, OnErr};
ghost use Rattle.bt_style.specs.Program.{program_of};
ghost use Rattle.bt_actions.specs.Item.{Num};
ghost use Rattle.bt_actions.specs.Arguments.{as_number, as_text, as_field_text, as_code, as_target, is_wrong};
ghost use Rattle.bt_actions.specs.LogLines.{shown_value};
ghost use Rattle.bt_actions.specs.View.{code_seen};
ghost use Rattle.bt_stack.specs.Desk.{with_items};
ghost use Rattle.bt_stack.specs.inner.Kept.{item_in, Fits};
ghost use Rattle.bt_stack.specs.Tops.{twice, top_len, exchanged, with_top, cut, tops_equal};

use crate::buffers::StepBuffers;
use crate::reading::{code_in, cut, equal, field_text_in, name_in, number_in, text_in, value_at};
use crate::shown::shown;
use crate::step_variables::StepVariables;
use crate::value::Value;
use bt_actions::{Code, Variables};
use bt_style::{Style, Target};
use bt_text::{Bytes, Shared};
use std::alloc::{AllocError, Global};
use std::marker::Model;

mod made;
mod variables;

/// No pool is swept before it has this many bytes. Few steps make more.
const SWEEP_BYTES: usize = 65_536;

/// How many bytes the pool and the buffer beside it have room for when a step begins. Most steps need no more, and up to
/// 1,032 bytes malloc keeps a free block at hand.
const FIRST_BYTES: usize = 1_024;

/// How many values there is room for at a step's beginning. Most steps need no more; it is 1,008 bytes.
const FIRST_VALUES: usize = 42;

/// The literal stack, and the variables of a step.
#[derive(Drop)]
pub struct Stack<'a> {
    /// Its top last.
    values: Vec<Value<'a>>,
    globals: StepVariables<'a>,
    own: StepVariables<'a>,
    /// The texts that the step made or gave to variables, one after another.
    pool: Vec<u8>,
    /// A buffer for bytes on their way into the pool.
    scratch: Vec<u8>,
    /// The pool is swept once it has this many bytes.
    sweep_at: usize,
}

impl<'a> Model for Stack<'a> {
    ghost use Rattle.std.specs.Prelude.{length};
    ghost use Rattle.bt_style.specs.contracts.style.Target as target;
    ghost use Rattle.std.specs.Coded.{codes};
    ghost use Rattle.bt_stack.specs.Desk.{Desk};
    ghost use Rattle.bt_stack.specs.inner.BodyCode.{body_code};

    ghost Value = { Desk };

    ghost coded = { Prim.hlevel (codes, body_code target.the_row.coded) };

    ghost use Rattle.bt_stack.specs.inner.Kept.{desk, IsSound};

    ghost view = { λ stack. desk stack.pool.items stack.values.items stack.globals stack.own };

    ghost invariant = { λ stack. IsSound (length stack.pool.items) stack.values.items stack.globals stack.own };
}

impl<'a> Stack<'a> {
    /// An empty stack with the variables of the style and of an entry.
    pub fn new(
        alloc: Global,
        buffers: &mut StepBuffers,
        globals: &'a Shared<Variables>,
        own: &'a Shared<Variables>,
    ) -> Self
        ensures { result ≡ record { items = []; globals = globals.now; own = own.now } }
    {
        Stack {
            values: Vec::new(alloc),
            globals: StepVariables {
                given: globals,
                numbers: buffers.globals.take_numbers(alloc),
                texts: buffers.globals.take_texts(alloc),
            },
            own: StepVariables {
                given: own,
                numbers: buffers.own.take_numbers(alloc),
                texts: buffers.own.take_texts(alloc),
            },
            pool: buffers.take_pool(alloc),
            scratch: buffers.take_scratch(alloc),
            sweep_at: SWEEP_BYTES,
        }
    }

    /// Makes room for the values and texts of most steps, so that they needn't grow by small steps.
    pub fn make_room(&mut self) -> Result<(), AllocError>
        ensures { self.new ≡ self.old }
    {
        self.values.reserve(FIRST_VALUES)?;
        self.pool.reserve(FIRST_BYTES)?;
        self.scratch.reserve(FIRST_BYTES)
    }

    /// How many values there are.
    pub fn len(&self) -> usize
        ensures len { result ≡ length self.now.items }
        ensures few { result ≤ 1000 }
    {
        self.values.len()
    }

    /// Pushes a value; a text outlives the stack, and nothing is copied. After out of memory, the stack is unchanged, as it
    /// is for each method below.
    pub(crate) fn push(&mut self, value: Value<'a>) -> Result<(), AllocError>
        requires fits { Fits 0 value }
        requires room { length self.old.items < 1000 }
        ensures ok { OnOk result (self.new ≡ with_items (item_in [] value.entry ∷ self.old.items) self.old) }
        ensures err { OnErr result (self.new ≡ self.old) }
    {
        self.values.push(value)?;
        Ok(())
    }

    /// The number `depth` places below the top, if there is one.
    pub fn number_at(&self, depth: usize) -> Option<i32>
        ensures { result ≡ option_and_then as_number (slice_get self.now.items depth) }
    {
        match value_at(&self.values, depth) {
            Some(value) => number_in(value),
            None => None,
        }
    }

    /// Whether there is a value `depth` places below the top that isn't a number.
    #[cold]
    pub fn is_no_number(&self, depth: usize) -> bool
        ensures { result ≡ is_wrong as_number (slice_get self.now.items depth) }
    {
        depth < self.len() && self.number_at(depth).is_none()
    }

    /// The text `depth` places below the top, if there is one.
    pub fn text_at(&self, depth: usize) -> Option<&[u8]>
        ensures text { option_copied result ≡ option_and_then as_text (slice_get self.now.items depth) }
        ensures short { IfSome result (λ text. length text.now ≤ 65536) }
    {
        match value_at(&self.values, depth) {
            Some(value) => text_in(&self.pool, value),
            None => None,
        }
    }

    /// Whether there is a value `depth` places below the top that isn't a text.
    #[cold]
    pub fn is_no_text(&self, depth: usize) -> bool
        ensures { result ≡ is_wrong as_text (slice_get self.now.items depth) }
    {
        depth < self.len() && self.text_at(depth).is_none()
    }

    /// The text `depth` places below the top, or an inner `None` for a missing field, if there is either.
    pub fn field_text_at(&self, depth: usize) -> Option<Option<&[u8]>>
        ensures { option_map option_copied result ≡ option_and_then as_field_text (slice_get self.now.items depth) }
    {
        match value_at(&self.values, depth) {
            Some(value) => field_text_in(&self.pool, value),
            None => None,
        }
    }

    /// Whether there is a value `depth` places below the top that is neither.
    #[cold]
    pub fn is_no_field_text(&self, depth: usize) -> bool
        ensures { result ≡ is_wrong as_field_text (slice_get self.now.items depth) }
    {
        depth < self.len() && self.field_text_at(depth).is_none()
    }

    /// The function `depth` places below the top, if there is one.
    pub fn code_at(&self, depth: usize) -> Option<Code<'a>>
        ensures { option_map code_seen result ≡ option_and_then as_code (slice_get self.now.items depth) }
    {
        match value_at(&self.values, depth) {
            Some(value) => code_in(value),
            None => None,
        }
    }

    /// Whether there is a value `depth` places below the top that isn't a function.
    #[cold]
    pub fn is_no_code(&self, depth: usize) -> bool
        ensures { result ≡ is_wrong as_code (slice_get self.now.items depth) }
    {
        depth < self.len() && self.code_at(depth).is_none()
    }

    /// The quoted name `depth` places below the top, if there is one.
    pub fn name_at(&self, depth: usize) -> Option<Target>
        ensures { result ≡ option_and_then as_target (slice_get self.now.items depth) }
    {
        match value_at(&self.values, depth) {
            Some(value) => name_in(value),
            None => None,
        }
    }

    /// Whether there is a value `depth` places below the top that isn't a quoted name.
    #[cold]
    pub fn is_no_name(&self, depth: usize) -> bool
        ensures { result ≡ is_wrong as_target (slice_get self.now.items depth) }
    {
        depth < self.len() && self.name_at(depth).is_none()
    }

    /// The words in which the log shows the topmost value, if there is one.
    pub fn shown_top(&self, alloc: Global, style: &Style) -> Result<Option<Bytes>, AllocError>
        ensures { IfOk result (λ words. words
            ≡ option_map (shown_value (program_of style.now)) (slice_get self.now.items 0)) }
    {
        match value_at(&self.values, 0) {
            None => Ok(None),
            Some(value) => {
                let words = shown(alloc, style, &self.pool, value)?;
                Ok(Some(words))
            }
        }
    }

    /// Whether the two topmost values are equal, if they are two numbers or two texts.
    pub fn tops_equal(&self) -> Option<bool>
        ensures { result ≡ tops_equal self.now.items }
    {
        let count = self.values.len();
        if count < 2 {
            return None;
        }
        equal(&self.pool, self.values[count - 2], self.values[count - 1])
    }

    /// Removes the topmost `count` values.
    pub fn drop_tops(&mut self, count: usize)
        requires { count ≤ length self.old.items }
        ensures { self.new ≡ with_items (drop count self.old.items) self.old }
    {
        let left = self.values.len() - count;
        self.values.truncate(left);
    }

    /// Replaces the topmost `count` values by a number.
    pub fn answer_number(&mut self, count: usize, number: i32)
        requires some { 0 < count }
        requires there { count ≤ length self.old.items }
        ensures answered { self.new ≡ with_items (Num number ∷ drop count self.old.items) self.old }
        ensures few { length self.old.items ≤ 1000 }
    {
        let place = self.values.len() - count;
        self.values[place] = Value::Number(number);
        self.values.truncate(place + 1);
    }

    /// Pushes the topmost value again, if there is one.
    pub fn duplicate(&mut self) -> Result<(), AllocError>
        requires { length self.old.items < 1000 }
        ensures ok { OnOk result (self.new ≡ with_items (twice self.old.items) self.old) }
        ensures short { top_len self.old.items ≤ 65536 }
        ensures err { OnErr result (self.new ≡ self.old) }
    {
        let count = self.values.len();
        if count > 0 {
            let top = self.values[count - 1];
            self.values.push(top)?;
        }
        Ok(())
    }

    /// Swaps the two topmost values, if there are two.
    pub fn swap(&mut self)
        ensures { self.new ≡ with_items (exchanged self.old.items) self.old }
    {
        let count = self.values.len();
        if count >= 2 {
            let top = self.values[count - 1];
            self.values[count - 1] = self.values[count - 2];
            self.values[count - 2] = top;
        }
    }

    /// Replaces the topmost value by a part of it, if it is a text. Nothing is copied.
    pub fn cut_top(&mut self, from: usize, len: usize)
        ensures top { self.new ≡ with_items (with_top (cut from len) self.old.items) self.old }
        ensures few { length self.old.items ≤ 1000 }
    {
        let count = self.values.len();
        if count > 0 {
            self.values[count - 1] = cut(&self.pool, self.values[count - 1], from, len);
        }
    }
}
