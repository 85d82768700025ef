//! Cases of lists of texts, many of which are missing: scripts that make such lists, numbered from 0, change them, and
//! ask for their texts.

use crate::Done;
use crate::answer::{Answer, Spelled};
use crate::words::Words;
use bt_text::{Excerpt, Shared, SparseTexts};
use std::alloc::{AllocError, Global};

fn shared(alloc: Global, list: &SparseTexts) -> Result<SparseTexts, AllocError> {
    let shared = list.copied(alloc)?.into_shared(alloc)?;
    shared.copied(alloc)
}

/// The list that a step makes, if it makes one: a number of places without a text, filled from another list, copied, or
/// copied for many owners.
fn made(step: Words<'_>, lists: &[SparseTexts]) -> Result<Option<SparseTexts>, AllocError> {
    let (alloc, n) = (step.alloc, step.count(1));
    match (step.word(0), lists.get(n), lists.get(step.count(2))) {
        ("new", _, _) => Ok(Some(SparseTexts::new(alloc, n))),
        ("filled", Some(list), Some(others)) => Ok(Some(list.filled_from(alloc, others)?)),
        ("copied", Some(list), _) => Ok(Some(list.copied(alloc)?)),
        ("shared", Some(list), _) => Ok(Some(shared(alloc, list)?)),
        _ => Ok(None),
    }
}

fn set_all(list: &mut SparseTexts, text: &Excerpt) -> Done {
    for place in 0..list.len() {
        list.set(place, Some(text.share()?))?;
    }
    Ok(())
}

/// Changes a list: a text at one place, one at every place, or none at one place.
fn change(step: Words<'_>, list: &mut SparseTexts) -> Done {
    match step.word(0) {
        "set" => list.set(step.count(2), Some(Excerpt::of(step.shared(3)?)?)),
        "set_all" => set_all(list, &Excerpt::of(step.shared(2)?)?),
        "clear" => list.set(step.count(2), None),
        _ => Ok(()),
    }
}

fn carry_out(step: Words<'_>, lists: &mut Vec<SparseTexts>) -> Done {
    if let Some(list) = made(step, lists)? {
        lists.push(list)?;
    } else if let Some(list) = lists.get_mut(step.count(1)) {
        change(step, list)?;
    }
    Ok(())
}

impl Spelled for &Excerpt {
    fn spell(&self, out: &mut Answer) {
        self.as_slice().spell(out);
    }
}

fn push_all(out: &mut Answer, list: &SparseTexts) {
    for place in 0..list.len() {
        if place == 0 {
            out.more(" ");
        } else {
            out.put(b",");
        }
        list.get(place).spell(out);
    }
}

/// What a step asks of a list, if it asks: all texts, one of them, whether another list is the same, or whether it has
/// none.
fn push_asked(step: Words<'_>, out: &mut Answer, lists: &[SparseTexts]) {
    let n = step.count(2);
    match (step.word(0), lists.get(step.count(1)), lists.get(n)) {
        ("all", Some(list), _) => push_all(out, list),
        ("get", Some(list), _) => out.word(list.get(n)),
        ("is_same", Some(list), Some(others)) => out.word(list.is_same(others)),
        ("has_none", Some(list), _) => out.word(list.has_none()),
        _ => {}
    }
}

pub fn push_answer(words: Words<'_>, out: &mut Answer) -> Done {
    let mut lists = Vec::new(words.alloc);
    for word in words.after(1) {
        carry_out(words.parts(word), &mut lists)?;
        push_asked(words.parts(word), out, &lists);
    }
    Ok(())
}
