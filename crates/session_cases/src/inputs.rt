//! Inputs of a step whose function reaches its entry's title, but not the note.

use bt_machine::{Entry, Input, TwoInputs, Variables, agrees};
use bt_style::{Builtin, Reach, Style, Target, read_style};
use bt_text::{Bytes, Excerpt, Held, Shared, SparseTexts, Values};
use std::alloc::{AllocError, Global};

const STYLE: &[u8] =
    b"ENTRY {title note} {number} {label} INTEGERS {n} STRINGS {s} FUNCTION {f} {title \"t\" change.case$ duplicate$ 's := 'label := #2 'n := {n #0 >} {s #1 \"{vv~}{ll}\" format.name$ write$ newline$ n #1 - 'n := \"x\" n int.to.str$ * quote$ * warning$} while$ title purify$ text.length$ 'number := cite$ top$ {skip$} 'skip$ stack$ pop$ preamble$ write$ #7}";

/// What the step runs.
pub const TARGET: Target = Target::Builtin(Builtin::CallType);

fn text(alloc: Global, text: &str) -> Result<Shared<Bytes>, AllocError> {
    Shared::<Bytes>::copied(alloc, text.as_bytes())
}

fn variables(alloc: Global) -> Result<Shared<Variables>, AllocError> {
    let mut texts = Vec::new(alloc);
    texts.push(text(alloc, "")?)?;
    texts.push(text(alloc, "")?)?;
    let texts = Values::from_vec(alloc, texts)?;
    let numbers = Values::from_vec(alloc, vec![in alloc; 250, 20_000, 0]?)?;
    Shared::new(alloc, Variables { numbers, texts })
}

fn fields(alloc: Global, title: &str, note: &str) -> Result<Shared<SparseTexts>, AllocError> {
    let mut fields = SparseTexts::new(alloc, 3);
    fields.set(1, Some(Excerpt::of(text(alloc, title)?)?))?;
    fields.set(2, Some(Excerpt::of(text(alloc, note)?)?))?;
    Shared::new(alloc, fields)
}

fn entry(alloc: Global, words: &str) -> Result<Entry, AllocError> {
    let (key, words) = words.split_once(',').unwrap_or((words, ""));
    let (title, note) = words.split_once(',').unwrap_or((words, ""));
    Ok(Entry {
        key: text(alloc, key)?,
        kind: text(alloc, "misc")?,
        function: Some(0),
        fields: fields(alloc, title, note)?,
        variables: variables(alloc)?,
    })
}

/// The input for an entry, which is spelled `KEY,TITLE,NOTE`.
pub fn input(alloc: Global, words: &str) -> Result<Input, AllocError> {
    let preamble = text(alloc, "pre")?;
    let globals = variables(alloc)?;
    let entry = entry(alloc, words)?;
    Ok(Input {
        target: TARGET,
        entry: Some(entry),
        globals,
        held: Held::new(alloc),
        preamble,
    })
}

pub fn style(alloc: Global) -> Result<Style, AllocError> {
    match read_style(alloc, STYLE) {
        Ok(style) => Ok(style),
        Err(_) => Err(AllocError),
    }
}

pub fn reach(alloc: Global, style: &Style) -> Result<Reach, AllocError> {
    style.reach(alloc, TARGET, Some(0))
}

fn agree_in(alloc: Global, style: &Style, one: &str, other: &str) -> Result<bool, AllocError> {
    let reach = reach(alloc, style)?;
    let one = input(alloc, one)?;
    let other = input(alloc, other)?;
    let inputs = TwoInputs {
        old: &one,
        new: &other,
        same: false,
    };
    Ok(agrees(style, inputs, &reach))
}

/// Whether the steps of two entries agree on all that their function can reach.
pub fn agree(alloc: Global, one: &str, other: &str) -> Result<bool, AllocError> {
    agree_in(alloc, &style(alloc)?, one, other)
}
