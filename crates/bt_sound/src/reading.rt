//! What names make of a state.
//!
//! A value that is read is told apart at once: there is a state for each case, with the case noted where the value is kept.

ghost use Rattle.std.specs.Prelude.{◌≡◌, ◌<◌, IfOk, Some, length, slice_index_or};
ghost use Rattle.bt_sound.specs.Known.{May, Range};
ghost use Rattle.bt_sound.specs.Reading.{entry_text_read, field_case, field_read, global_number_case, global_number_read, global_text_case, global_text_read, own_number_case, own_number_read, own_text_case, own_text_read, when};
ghost use Rattle.bt_sound.specs.Seen.{state_seen, states_seen};

use crate::known::Known;
use crate::may::May;
use crate::range::Range;
use crate::state::{KnownEntry, State};
use crate::stop::Stop;
use std::alloc::{AllocError, Global};

/// A state before the others, if it may be.
pub fn when<'a>(
    alloc: Global,
    may_be: bool,
    state: State<'a>,
    mut rest: Vec<State<'a>>,
) -> Result<Vec<State<'a>>, AllocError>
    ensures { IfOk result (λ states. states_seen states.items ≡ when may_be (state_seen state.entry) (states_seen rest.entry.items)) }
{
    if !may_be {
        return Ok(rest);
    }
    let mut states = Vec::new(alloc);
    states.push(state)?;
    states.append(&mut rest)?;
    Ok(states)
}

/// The entry of a state, which has one.
pub fn entry_of<'s, 'a>(state: &'s State<'a>) -> Result<&'s KnownEntry, Stop>
    ensures { IfOk result (λ entry. (state_seen state.now).entry ≡ Some entry.now) }
{
    match &state.entry {
        Some(entry) => Ok(entry),
        None => Err(Stop::Refused),
    }
}

fn text_at(texts: &[May], n: usize) -> Result<May, Stop>
    ensures within { IfOk result (λ may. n < length texts.now) }
    ensures value { IfOk result (λ may. (default : May) → slice_index_or texts.now n default ≡ may) }
{
    if n < texts.len() {
        Ok(texts[n])
    } else {
        Err(Stop::Refused)
    }
}

fn number_at(numbers: &[Range], n: usize) -> Result<Range, Stop>
    ensures within { IfOk result (λ range. n < length numbers.now) }
    ensures value { IfOk result (λ range. (default : Range) → slice_index_or numbers.now n default ≡ range) }
{
    if n < numbers.len() {
        Ok(numbers[n])
    } else {
        Err(Stop::Refused)
    }
}

/// A read of the field or variable of this number. Each method `.._case` gives the state after it, if the value is so; the
/// method without `case` puts that state before others, if the value may be so.
#[derive(Clone, Copy)]
struct Read<'s, 'a> {
    alloc: Global,
    state: &'s State<'a>,
    n: usize,
}

impl<'a> Read<'_, 'a> {
    fn field_case(&self, entry: &KnownEntry, may: May) -> Result<State<'a>, AllocError>
        requires { self.now.n < length entry.now.fields }
        ensures { IfOk result (λ after. state_seen after
            ≡ field_case self.now.n may entry.now (state_seen self.now.state.now)) }
    {
        let entry = entry.with_field(self.alloc, self.n, may)?;
        let state = self.state.with_entry(self.alloc, entry)?;
        state.pushed(self.alloc, Known::Text(may))
    }

    fn field(
        &self,
        entry: &KnownEntry,
        may: May,
        may_be: bool,
        rest: Vec<State<'a>>,
    ) -> Result<Vec<State<'a>>, AllocError>
        requires { self.now.n < length entry.now.fields }
        ensures { IfOk result (λ states. states_seen states.items ≡ when may_be
            (field_case self.now.n may entry.now (state_seen self.now.state.now)) (states_seen rest.entry.items)) }
    {
        if !may_be {
            return Ok(rest);
        }
        let first = self.field_case(entry, may)?;
        let states = when(self.alloc, may_be, first, rest)?;
        Ok(states)
    }

    fn own_text_case(&self, entry: &KnownEntry, may: May) -> Result<State<'a>, AllocError>
        requires { self.now.n < length entry.now.variables.texts }
        ensures { IfOk result (λ after. state_seen after ≡ own_text_case self.now.n may entry.now (state_seen self.now.state.now)) }
    {
        let variables = entry.variables.with_text(self.alloc, self.n, may)?;
        let entry = entry.with_variables(self.alloc, variables)?;
        let state = self.state.with_entry(self.alloc, entry)?;
        state.pushed(self.alloc, Known::Text(may))
    }

    fn own_text(
        &self,
        entry: &KnownEntry,
        may: May,
        may_be: bool,
        rest: Vec<State<'a>>,
    ) -> Result<Vec<State<'a>>, AllocError>
        requires { self.now.n < length entry.now.variables.texts }
        ensures { IfOk result (λ states. states_seen states.items ≡ when may_be
            (own_text_case self.now.n may entry.now (state_seen self.now.state.now)) (states_seen rest.entry.items)) }
    {
        if !may_be {
            return Ok(rest);
        }
        let first = self.own_text_case(entry, may)?;
        let states = when(self.alloc, may_be, first, rest)?;
        Ok(states)
    }

    fn own_number_case(&self, entry: &KnownEntry, range: Range) -> Result<State<'a>, AllocError>
        requires { self.now.n < length entry.now.variables.numbers }
        ensures { IfOk result (λ after. state_seen after ≡ own_number_case self.now.n range entry.now (state_seen self.now.state.now)) }
    {
        let variables = entry.variables.with_number(self.alloc, self.n, range)?;
        let entry = entry.with_variables(self.alloc, variables)?;
        let state = self.state.with_entry(self.alloc, entry)?;
        state.pushed(self.alloc, Known::Number(range))
    }

    fn own_number(
        &self,
        entry: &KnownEntry,
        range: Range,
        may_be: bool,
        rest: Vec<State<'a>>,
    ) -> Result<Vec<State<'a>>, AllocError>
        requires { self.now.n < length entry.now.variables.numbers }
        ensures { IfOk result (λ states. states_seen states.items ≡ when may_be
            (own_number_case self.now.n range entry.now (state_seen self.now.state.now)) (states_seen rest.entry.items)) }
    {
        if !may_be {
            return Ok(rest);
        }
        let first = self.own_number_case(entry, range)?;
        let states = when(self.alloc, may_be, first, rest)?;
        Ok(states)
    }

    fn global_text_case(&self, may: May) -> Result<State<'a>, AllocError>
        requires { self.now.n < length self.now.state.now.globals.texts }
        ensures { IfOk result (λ after. state_seen after ≡ global_text_case self.now.n may (state_seen self.now.state.now)) }
    {
        let globals = self.state.globals.with_text(self.alloc, self.n, may)?;
        let state = self.state.with_globals(self.alloc, globals)?;
        state.pushed(self.alloc, Known::Text(may))
    }

    fn global_text(
        &self,
        may: May,
        may_be: bool,
        rest: Vec<State<'a>>,
    ) -> Result<Vec<State<'a>>, AllocError>
        requires { self.now.n < length self.now.state.now.globals.texts }
        ensures { IfOk result (λ states. states_seen states.items ≡ when may_be
            (global_text_case self.now.n may (state_seen self.now.state.now)) (states_seen rest.entry.items)) }
    {
        if !may_be {
            return Ok(rest);
        }
        let first = self.global_text_case(may)?;
        let states = when(self.alloc, may_be, first, rest)?;
        Ok(states)
    }

    fn global_number_case(&self, range: Range) -> Result<State<'a>, AllocError>
        requires { self.now.n < length self.now.state.now.globals.numbers }
        ensures { IfOk result (λ after. state_seen after ≡ global_number_case self.now.n range (state_seen self.now.state.now)) }
    {
        let globals = self.state.globals.with_number(self.alloc, self.n, range)?;
        let state = self.state.with_globals(self.alloc, globals)?;
        state.pushed(self.alloc, Known::Number(range))
    }

    fn global_number(
        &self,
        range: Range,
        may_be: bool,
        rest: Vec<State<'a>>,
    ) -> Result<Vec<State<'a>>, AllocError>
        requires { self.now.n < length self.now.state.now.globals.numbers }
        ensures { IfOk result (λ states. states_seen states.items ≡ when may_be
            (global_number_case self.now.n range (state_seen self.now.state.now)) (states_seen rest.entry.items)) }
    {
        if !may_be {
            return Ok(rest);
        }
        let first = self.global_number_case(range)?;
        let states = when(self.alloc, may_be, first, rest)?;
        Ok(states)
    }
}

/// The states after a field was read.
pub fn field_read<'a>(alloc: Global, n: usize, state: &State<'a>) -> Result<Vec<State<'a>>, Stop>
    ensures { IfOk result (λ states. field_read n (state_seen state.now) ≡ Some (states_seen states.items)) }
{
    let entry = entry_of(state)?;
    let may = text_at(entry.fields.as_slice(), n)?;
    let read = Read { alloc, state, n };
    let states = Vec::new(alloc);
    let states = read.field(entry, May::only_inked(), may.inked, states)?;
    let states = read.field(entry, May::only_blank(), may.blank, states)?;
    let states = read.field(entry, May::only_missing(), may.missing, states)?;
    Ok(states)
}

/// The states after a text variable of the entry was read.
pub fn own_text_read<'a>(alloc: Global, n: usize, state: &State<'a>) -> Result<Vec<State<'a>>, Stop>
    ensures { IfOk result (λ states. own_text_read n (state_seen state.now) ≡ Some (states_seen states.items)) }
{
    let entry = entry_of(state)?;
    let may = text_at(entry.variables.texts.as_slice(), n)?;
    let read = Read { alloc, state, n };
    let states = Vec::new(alloc);
    let states = read.own_text(entry, May::only_inked(), may.inked, states)?;
    let states = read.own_text(entry, May::only_blank(), may.blank, states)?;
    Ok(states)
}

/// The states after an integer variable of the entry was read.
pub fn own_number_read<'a>(
    alloc: Global,
    n: usize,
    state: &State<'a>,
) -> Result<Vec<State<'a>>, Stop>
    ensures { IfOk result (λ states. own_number_read n (state_seen state.now) ≡ Some (states_seen states.items)) }
{
    let entry = entry_of(state)?;
    let range = number_at(entry.variables.numbers.as_slice(), n)?;
    let upto = range.upto_zero();
    let above = range.above_zero();
    let read = Read { alloc, state, n };
    let states = Vec::new(alloc);
    let states = read.own_number(entry, above, above.is_open(), states)?;
    let states = read.own_number(entry, upto, upto.is_open(), states)?;
    Ok(states)
}

/// The states after a global text variable was read.
pub fn global_text_read<'a>(
    alloc: Global,
    n: usize,
    state: &State<'a>,
) -> Result<Vec<State<'a>>, Stop>
    ensures { IfOk result (λ states. global_text_read n (state_seen state.now) ≡ states_seen states.items) }
{
    let may = text_at(state.globals.texts.as_slice(), n)?;
    let read = Read { alloc, state, n };
    let states = Vec::new(alloc);
    let states = read.global_text(May::only_inked(), may.inked, states)?;
    let states = read.global_text(May::only_blank(), may.blank, states)?;
    Ok(states)
}

/// The states after a global integer variable was read.
pub fn global_number_read<'a>(
    alloc: Global,
    n: usize,
    state: &State<'a>,
) -> Result<Vec<State<'a>>, Stop>
    ensures { IfOk result (λ states. global_number_read n (state_seen state.now) ≡ states_seen states.items) }
{
    let range = number_at(state.globals.numbers.as_slice(), n)?;
    let upto = range.upto_zero();
    let above = range.above_zero();
    let read = Read { alloc, state, n };
    let states = Vec::new(alloc);
    let states = read.global_number(above, above.is_open(), states)?;
    let states = read.global_number(upto, upto.is_open(), states)?;
    Ok(states)
}

/// The states after `cite$` or `type$`.
pub fn entry_text_read<'a>(alloc: Global, state: &State<'a>) -> Result<Vec<State<'a>>, Stop>
    ensures { IfOk result (λ states. entry_text_read (state_seen state.now) ≡ Some (states_seen states.items)) }
{
    let _entry = entry_of(state)?;
    let mut states = Vec::new(alloc);
    states.push(state.pushed(alloc, Known::Text(May::any_text()))?)?;
    Ok(states)
}
