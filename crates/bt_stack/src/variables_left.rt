//! The variables that a step leaves.
//!
//! Each text that the step gave to a variable lies in its pool, which is kept here too. So nothing here borrows from the
//! step's input, and the caller can drop the input. If nothing else owns the given variables then, the values are put into
//! them, otherwise into a copy.

ghost use Rattle.std.specs.Prelude.{◌≡◌, [], length, option_map, IfOk, IfSome, OnOk};
ghost use Rattle.bt_actions.specs.Arguments.{as_text};
ghost use Rattle.bt_stack.specs.inner.Kept.{item_in, texts_over, values_over, put, Fits, AllFit};
ghost use Rattle.bt_stack.specs.inner.Left.{changed_in};

use crate::buffers::{StepBuffers, VariableBuffers};
use crate::reading::text_in;
use crate::step_variables::{StepVariables, own_number};
use crate::value::Value;
use bt_actions::Variables;
use bt_text::{Bytes, Shared, Values};
use std::alloc::{AllocError, Global};
use std::marker::Model;
use std::mem;

/// Puts a number in its place, if the step gave one.
fn put_number(
    alloc: Global,
    number: Option<i32>,
    left: &mut Values<i32>,
    n: usize,
) -> Result<(), AllocError>
    ensures { OnOk result (left.new ≡ put number n left.old) }
{
    match number {
        None => Ok(()),
        Some(number) => left.set(alloc, n, number),
    }
}

/// Puts the numbers that the step gave over others.
#[tactic(auto, using(crate::proofs::LeftLemmas::values_next))]
fn put_numbers(
    alloc: Global,
    numbers: &[Option<i32>],
    left: &mut Values<i32>,
) -> Result<(), AllocError>
    ensures { OnOk result (left.new ≡ values_over numbers.now left.old) }
{
    'numbers: for n in 0..numbers.len() {
        put_number(alloc, own_number(numbers, n), left, n)?;
    }
    Ok(())
}

/// Puts a kept text of a pool in its place, if the value is one.
fn put_text(
    alloc: Global,
    pool: &[u8],
    value: Value,
    left: &mut Values<Shared<Bytes>>,
    n: usize,
) -> Result<(), AllocError>
    requires { Fits (length pool.now) value }
    ensures { OnOk result (left.new ≡ put (as_text (item_in pool.now value.entry)) n left.old) }
{
    match text_in(pool, value) {
        None => Ok(()),
        Some(text) => left.write(alloc, n, text),
    }
}

/// Puts the texts that the step gave over others.
fn put_texts(
    alloc: Global,
    pool: &[u8],
    texts: &[Value],
    left: &mut Values<Shared<Bytes>>,
) -> Result<(), AllocError>
    requires { AllFit (length pool.now) texts.now }
    ensures { OnOk result (left.new ≡ texts_over pool.now texts.now left.old) }
{
    'texts: for n in 0..texts.len() {
        put_text(alloc, pool, texts[n], left, n)?;
    }
    Ok(())
}

/// The variables themselves if they have no other owner, which leaves `given` empty; otherwise a copy.
fn taken(alloc: Global, given: &mut Shared<Variables>) -> Result<Variables, AllocError>
    ensures { IfOk result (λ variables. variables ≡ given.old) }
{
    let none = Variables {
        numbers: Values::new(alloc),
        texts: Values::new(alloc),
    };
    match given.try_replace(none) {
        Ok(variables) => Ok(variables),
        Err(_) => {
            let numbers = given.numbers.copied(alloc)?;
            let texts = given.texts.copied(alloc)?;
            Ok(Variables { numbers, texts })
        }
    }
}

/// The variables for many owners, in the place of `given` if it has no other owner, so that nothing is allocated;
/// otherwise in a new one.
fn settled_in(
    alloc: Global,
    given: Shared<Variables>,
    variables: Variables,
) -> Result<Shared<Variables>, AllocError>
    ensures { IfOk result (λ settled. settled ≡ variables) }
{
    let mut given = given;
    match given.try_replace(variables) {
        Ok(_) => Ok(given),
        Err(variables) => Shared::new(alloc, variables),
    }
}

/// Variables that a step was given, and the values that it gave to some, as in `StepVariables`.
#[derive(Drop)]
pub struct ChangedVariables {
    given: Shared<Variables>,
    numbers: Vec<Option<i32>>,
    texts: Vec<Value<'static>>,
}

impl ChangedVariables {
    /// Takes the step's values out of `variables`. `given` is another owner of the variables that the step was given.
    pub(crate) fn of(
        alloc: Global,
        given: Shared<Variables>,
        variables: &mut StepVariables,
    ) -> ChangedVariables
        ensures changed { result
            ≡ record { given = given; numbers = variables.old.numbers; texts = variables.old.texts } }
        ensures none { variables.new.texts.items ≡ [] }
    {
        ChangedVariables {
            given,
            numbers: mem::replace(&mut variables.numbers, Vec::new(alloc)),
            texts: mem::replace(&mut variables.texts, Vec::new(alloc)),
        }
    }

    /// The variables for many owners; their texts lie in this pool. Puts both vectors back into `buffers`, except after out of
    /// memory.
    fn settled(
        self,
        alloc: Global,
        pool: &[u8],
        buffers: &mut VariableBuffers,
    ) -> Result<Shared<Variables>, AllocError>
        requires { AllFit (length pool.now) self.texts.items }
        ensures { IfOk result (λ left. left ≡ changed_in pool.now self) }
    {
        let ChangedVariables {
            given,
            numbers,
            texts,
        } = self;
        let settled = settled(alloc, pool, given, &numbers, &texts)?;
        buffers.put_back(numbers, texts);
        Ok(settled)
    }
}

/// The variables for many owners, with these numbers and texts put over them.
fn settled(
    alloc: Global,
    pool: &[u8],
    given: Shared<Variables>,
    numbers: &[Option<i32>],
    texts: &[Value],
) -> Result<Shared<Variables>, AllocError>
    requires { AllFit (length pool.now) texts.now }
    ensures { IfOk result (λ left. left ≡ record {
      numbers = values_over numbers.now given.numbers;
      texts = texts_over pool.now texts.now given.texts;
    }) }
{
    if numbers.is_empty() && texts.is_empty() {
        return Ok(given);
    }
    let mut given = given;
    let mut left = taken(alloc, &mut given)?;
    put_numbers(alloc, numbers, &mut left.numbers)?;
    put_texts(alloc, pool, texts, &mut left.texts)?;
    settled_in(alloc, given, left)
}

/// The variables of a step at its end: those of the style, and those of its entry, if it has one. Contracts see them as
/// they are now.
#[derive(Drop)]
pub struct VariablesLeft {
    pool: Vec<u8>,
    /// A buffer that the step used beside the pool.
    scratch: Vec<u8>,
    globals: ChangedVariables,
    own: Option<ChangedVariables>,
}

impl Model for VariablesLeft {
    ghost use Rattle.std.specs.Prelude.{Option, length, option_map};
    ghost use Rattle.std.specs.Option.{ForSome};
    ghost use Rattle.bt_actions.specs.declared.entry.Variables.{Variables};
    ghost use Rattle.bt_stack.specs.inner.Kept.{AllFit};
    ghost use Rattle.bt_stack.specs.inner.Left.{changed_in};

    ghost Value = { Variables × Option Variables };

    ghost view = { λ left. (changed_in left.pool.items left.globals, option_map (changed_in left.pool.items) left.own) };

    ghost invariant = { λ left. AllFit (length left.pool.items) left.globals.texts.items
        × ForSome left.own (λ own. AllFit (length left.pool.items) own.texts.items) };
}

impl VariablesLeft {
    /// Variables whose texts lie in this pool, and the buffer beside it.
    pub(crate) fn of(
        pool: Vec<u8>,
        scratch: Vec<u8>,
        globals: ChangedVariables,
        own: Option<ChangedVariables>,
    ) -> VariablesLeft
        requires globals { AllFit (length pool.items) globals.texts.items }
        requires own { IfSome own (λ own. AllFit (length pool.items) own.texts.items) }
        ensures { result ≡ (changed_in pool.items globals, option_map (changed_in pool.items) own) }
    {
        VariablesLeft {
            pool,
            scratch,
            globals,
            own,
        }
    }

    /// The variables for many owners. Those that the step was given are changed in place if they have no other owner. Puts the
    /// step's buffers back into `buffers`, except after out of memory.
    pub fn settled(
        self,
        alloc: Global,
        buffers: &mut StepBuffers,
    ) -> Result<(Shared<Variables>, Option<Shared<Variables>>), AllocError>
        ensures { IfOk result (λ settled. settled ≡ self) }
    {
        let VariablesLeft {
            pool,
            scratch,
            globals,
            own,
        } = self;
        let globals = globals.settled(alloc, &pool, &mut buffers.globals)?;
        let own = match own {
            None => None,
            Some(own) => Some(own.settled(alloc, &pool, &mut buffers.own)?),
        };
        buffers.put_back(pool, scratch);
        Ok((globals, own))
    }
}
