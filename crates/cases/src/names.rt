//! Cases of names: how many a text lists, the parts of one, and one formatted by a pattern, also within a limit.

use crate::Done;
use crate::answer::{Answer, Spelled, put};
use crate::words::Words;
use bt_names::{
    FormatFault, ListedName, NameFault, Parts, SoundPatterns, Token, Written, count, format, parts,
};
use std::alloc::AllocError;

impl Spelled for Token {
    fn spell(&self, out: &mut Answer) {
        put!(out; [self.before].as_slice(), ":", self.text);
    }
}

fn push_parts(out: &mut Answer, parts: &Parts) {
    out.list("first=[", parts.first.as_slice(), ",", "]");
    out.list(" von=[", parts.von.as_slice(), ",", "]");
    out.list(" last=[", parts.last.as_slice(), ",", "]");
    out.list(" jr=[", parts.jr.as_slice(), ",", "]");
}

fn push_parts_answer(words: Words<'_>, out: &mut Answer, names: &[u8]) -> Done {
    match parts(words.alloc, names, words.number(2)) {
        Ok(parts) => push_parts(out, &parts),
        Err(NameFault::OutOfMemory) => return Err(AllocError),
        Err(fault) => out.shown(&fault),
    }
    Ok(())
}

fn push_fault(out: &mut Answer, fault: FormatFault) -> Done {
    match fault {
        FormatFault::PatternFault(place) => put!(out; "PatternFault ", place),
        FormatFault::OutOfMemory => return Err(AllocError),
        fault => out.shown(&fault),
    }
    Ok(())
}

fn push_format_answer(words: Words<'_>, out: &mut Answer, names: &[u8]) -> Done {
    match format(words.alloc, names, words.number(2), &words.text(3)?) {
        Ok(text) => put!(out; text),
        Err(fault) => push_fault(out, fault)?,
    }
    Ok(())
}

fn push_within_answer(words: Words<'_>, out: &mut Answer, names: &[u8]) -> Done {
    let number = words.number(2);
    let name = ListedName { names, number };
    let pattern = words.text(3)?;
    let known = SoundPatterns::none(words.alloc);
    let mut page = Vec::new(words.alloc);
    match name.push_formatted(&known, &mut page, &pattern, words.count(4)) {
        Ok(Written::Whole) => put!(out; page.as_slice()),
        Ok(Written::Longer) => put!(out; "longer"),
        Err(fault) => push_fault(out, fault)?,
    }
    Ok(())
}

pub fn push_answer(words: Words<'_>, out: &mut Answer) -> Done {
    let names = words.text(1)?;
    match words.word(0) {
        "count" => put!(out; count(&names)),
        "parts" => push_parts_answer(words, out, &names)?,
        "format" => push_format_answer(words, out, &names)?,
        _ => push_within_answer(words, out, &names)?,
    }
    Ok(())
}
