//! What is known of variables, of an entry and of a world.

ghost use Rattle.std.specs.Prelude.{◌≡◌, ◌<◌, ◌∷◌, [], IfOk, length};
ghost use Rattle.bt_sound.specs.Known.{holding};
ghost use Rattle.bt_sound.specs.Reading.{field_known, number_known, of_globals, of_own, pushing, text_known};
ghost use Rattle.bt_sound.specs.Seen.{known_seen, knowns_seen, state_seen, states_seen};

use crate::known::Known;
use crate::may::May;
use crate::range::Range;
use bt_text::{Sequence, Shared};
use std::alloc::{AllocError, Global};

/// What is known of the variables of an entry, or of the global ones.
#[derive(Drop)]
pub struct KnownVariables {
    pub numbers: Sequence<Range>,
    pub texts: Sequence<May>,
}

/// What is known of an entry.
#[derive(Drop)]
pub struct KnownEntry {
    pub fields: Sequence<May>,
    pub variables: KnownVariables,
}

/// What is known of the world before an element. Most elements change the stack only, so states share the rest.
#[derive(Drop)]
pub struct State<'a> {
    /// The top first.
    pub stack: Vec<Known<'a>>,
    pub entry: Option<Shared<KnownEntry>>,
    pub globals: Shared<KnownVariables>,
}

fn copied_ranges(alloc: Global, ranges: &Sequence<Range>) -> Result<Sequence<Range>, AllocError>
    ensures { IfOk result (λ copy. copy ≡ ranges.now) }
{
    Ok(Sequence::from_vec(Vec::from_slice(alloc, ranges.as_slice())?))
}

fn copied_texts(alloc: Global, texts: &Sequence<May>) -> Result<Sequence<May>, AllocError>
    ensures { IfOk result (λ copy. copy ≡ texts.now) }
{
    Ok(Sequence::from_vec(Vec::from_slice(alloc, texts.as_slice())?))
}

impl KnownVariables {
    pub fn copied(&self, alloc: Global) -> Result<KnownVariables, AllocError>
        ensures { IfOk result (λ copy. copy ≡ self.now) }
    {
        let numbers = copied_ranges(alloc, &self.numbers)?;
        let texts = copied_texts(alloc, &self.texts)?;
        Ok(KnownVariables { numbers, texts })
    }

    /// These variables, with a number that is known anew.
    pub fn with_number(
        &self,
        alloc: Global,
        n: usize,
        range: Range,
    ) -> Result<KnownVariables, AllocError>
        requires { n < length self.now.numbers }
        ensures { IfOk result (λ variables. variables ≡ number_known n range self.now) }
    {
        let mut numbers = copied_ranges(alloc, &self.numbers)?;
        let texts = copied_texts(alloc, &self.texts)?;
        numbers.set(n, range);
        Ok(KnownVariables { numbers, texts })
    }

    /// These variables, with a text that is known anew.
    pub fn with_text(&self, alloc: Global, n: usize, may: May) -> Result<KnownVariables, AllocError>
        requires { n < length self.now.texts }
        ensures { IfOk result (λ variables. variables ≡ text_known n may self.now) }
    {
        let numbers = copied_ranges(alloc, &self.numbers)?;
        let mut texts = copied_texts(alloc, &self.texts)?;
        texts.set(n, may);
        Ok(KnownVariables { numbers, texts })
    }
}

impl KnownEntry {
    /// This entry, with a field that is known anew.
    pub fn with_field(&self, alloc: Global, n: usize, may: May) -> Result<KnownEntry, AllocError>
        requires { n < length self.now.fields }
        ensures { IfOk result (λ entry. entry ≡ field_known n may self.now) }
    {
        let mut fields = copied_texts(alloc, &self.fields)?;
        let variables = self.variables.copied(alloc)?;
        fields.set(n, may);
        Ok(KnownEntry { fields, variables })
    }

    /// This entry with other variables.
    pub fn with_variables(
        &self,
        alloc: Global,
        variables: KnownVariables,
    ) -> Result<KnownEntry, AllocError>
        ensures { IfOk result (λ entry. entry ≡ record self.now { variables = variables }) }
    {
        let fields = copied_texts(alloc, &self.fields)?;
        Ok(KnownEntry { fields, variables })
    }
}

fn shared_entry(
    entry: &Option<Shared<KnownEntry>>,
) -> Result<Option<Shared<KnownEntry>>, AllocError>
    ensures { IfOk result (λ same. same ≡ entry.now) }
{
    match entry {
        Some(known) => Ok(Some(known.share()?)),
        None => Ok(None),
    }
}

/// A value on top of others.
pub fn on<'a>(
    alloc: Global,
    known: Known<'a>,
    below: &[Known<'a>],
) -> Result<Vec<Known<'a>>, AllocError>
    ensures { IfOk result (λ stack. stack.items ≡ known.entry ∷ below.now) }
{
    let mut stack = Vec::with_capacity(alloc, below.len().saturating_add(1))?;
    stack.push(known)?;
    stack.extend_from_slice(below)?;
    Ok(stack)
}

impl<'a> State<'a> {
    pub fn copied(&self, alloc: Global) -> Result<State<'a>, AllocError>
        ensures { IfOk result (λ copy. state_seen copy ≡ state_seen self.now) }
    {
        self.with_stack(alloc, self.stack.as_slice())
    }

    /// This state with another stack.
    pub fn holding(&self, stack: Vec<Known<'a>>) -> Result<State<'a>, AllocError>
        ensures { IfOk result (λ state. state_seen state ≡ holding (knowns_seen stack.entry.items) (state_seen self.now)) }
    {
        let entry = shared_entry(&self.entry)?;
        let globals = self.globals.share()?;
        Ok(State {
            stack,
            entry,
            globals,
        })
    }

    /// This state with a copy of another stack.
    pub fn with_stack(&self, alloc: Global, stack: &[Known<'a>]) -> Result<State<'a>, AllocError>
        ensures { IfOk result (λ state. state_seen state ≡ holding (knowns_seen stack.now) (state_seen self.now)) }
    {
        let stack = Vec::from_slice(alloc, stack)?;
        self.holding(stack)
    }

    /// This state with a value on its stack.
    pub fn pushed(&self, alloc: Global, known: Known<'a>) -> Result<State<'a>, AllocError>
        ensures { IfOk result (λ state. state_seen state ≡ pushing (known_seen known.entry) (state_seen self.now)) }
    {
        let stack = on(alloc, known, self.stack.as_slice())?;
        self.holding(stack)
    }

    /// This state with another entry.
    pub fn with_entry(&self, alloc: Global, entry: KnownEntry) -> Result<State<'a>, AllocError>
        ensures { IfOk result (λ state. state_seen state ≡ of_own entry (state_seen self.now)) }
    {
        let stack = Vec::from_slice(alloc, self.stack.as_slice())?;
        let globals = self.globals.share()?;
        let entry = Shared::new(alloc, entry)?;
        Ok(State {
            stack,
            entry: Some(entry),
            globals,
        })
    }

    /// This state with other global variables.
    pub fn with_globals(
        &self,
        alloc: Global,
        globals: KnownVariables,
    ) -> Result<State<'a>, AllocError>
        ensures { IfOk result (λ state. state_seen state ≡ of_globals globals (state_seen self.now)) }
    {
        let stack = Vec::from_slice(alloc, self.stack.as_slice())?;
        let entry = shared_entry(&self.entry)?;
        let globals = Shared::new(alloc, globals)?;
        Ok(State {
            stack,
            entry,
            globals,
        })
    }
}

/// A state alone.
pub fn alone<'a>(alloc: Global, state: State<'a>) -> Result<Vec<State<'a>>, AllocError>
    ensures { IfOk result (λ states. states_seen states.items ≡ state_seen state.entry ∷ []) }
{
    let mut states = Vec::new(alloc);
    states.push(state)?;
    Ok(states)
}

/// A copy of a state alone.
pub fn only<'a>(alloc: Global, state: &State<'a>) -> Result<Vec<State<'a>>, AllocError>
    ensures { IfOk result (λ states. states_seen states.items ≡ state_seen state.now ∷ []) }
{
    let mut states = Vec::new(alloc);
    states.push(state.copied(alloc)?)?;
    Ok(states)
}
