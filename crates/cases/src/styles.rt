//! Cases of the style reader, and of what a function of a style reaches.

use crate::Done;
use crate::answer::{Answer, Raw, Spelled, put};
use crate::words::Words;
use bt_style::{Action, Op, Reach, Style, StyleFault, StyleRefusal, Target, read_style};
use bt_text::{Bytes, Sequence};
use std::alloc::{AllocError, Global};

fn name_at(names: &Sequence<Bytes>, place: usize) -> Raw<'_> {
    match names.as_slice().get(place) {
        Some(name) => Raw(name.as_slice()),
        None => Raw(b"?"),
    }
}

fn target_name(style: &Style, target: Target) -> Raw<'_> {
    match target {
        Target::Builtin(builtin) => Raw(builtin.name()),
        Target::Field(n) => name_at(&style.fields, n),
        Target::EntryNumber(n) => name_at(&style.entry_numbers, n),
        Target::EntryText(n) => name_at(&style.entry_texts, n),
        Target::GlobalNumber(n) => name_at(&style.global_numbers, n),
        Target::GlobalText(n) => name_at(&style.global_texts, n),
        Target::Function(n) => match style.functions.get(n) {
            Some(function) => Raw(function.name.as_slice()),
            None => Raw(b"?"),
        },
    }
}

fn push_names(out: &mut Answer, label: &str, names: &Sequence<Bytes>) {
    put!(out; label);
    for (place, name) in names.as_slice().iter().enumerate() {
        out.separator(place, ",");
        out.put(name.as_slice());
    }
}

fn push_op(out: &mut Answer, style: &Style, op: &Op) {
    match op {
        Op::Number(n) => {
            put!(out; "number:");
            out.shown(n);
        }
        Op::Text(text) => put!(out; "text:", *text),
        Op::Quote(target) => put!(out; "quote:", target_name(style, *target)),
        Op::Call(target) => put!(out; "call:", target_name(style, *target)),
        Op::Block(inner) => {
            put!(out; "{");
            for (place, op) in inner.as_slice().iter().enumerate() {
                out.separator(place, " ");
                push_op(out, style, op);
            }
            put!(out; "}");
        }
    }
}

fn push_macros(out: &mut Answer, style: &Style) {
    for (place, defined) in style.macros.as_slice().iter().enumerate() {
        out.separator(place, ",");
        put!(out; Raw(defined.name.as_slice()), ":", defined.text);
    }
}

fn push_functions(out: &mut Answer, style: &Style) {
    for (place, function) in style.functions.as_slice().iter().enumerate() {
        out.separator(place, ",");
        put!(out; Raw(function.name.as_slice()), ":{");
        for (place, op) in function.body.iter().enumerate() {
            out.separator(place, " ");
            push_op(out, style, op);
        }
        put!(out; "}");
    }
}

fn command_words(style: &Style, action: Action) -> (&'static str, Raw<'_>) {
    match action {
        Action::Entry => ("ENTRY:", Raw(b".")),
        Action::Execute(target) => ("EXECUTE:", target_name(style, target)),
        Action::Function(_) => ("FUNCTION:", Raw(b".")),
        Action::Integers => ("INTEGERS:", Raw(b".")),
        Action::Iterate(target) => ("ITERATE:", target_name(style, target)),
        Action::Macro(_) => ("MACRO:", Raw(b".")),
        Action::Read => ("READ:", Raw(b".")),
        Action::Reverse(target) => ("REVERSE:", target_name(style, target)),
        Action::Sort => ("SORT:", Raw(b".")),
        Action::Strings => ("STRINGS:", Raw(b".")),
    }
}

fn push_commands(out: &mut Answer, style: &Style) {
    for (place, command) in style.commands.as_slice().iter().enumerate() {
        out.separator(place, ",");
        let (word, name) = command_words(style, command.action);
        put!(out; word, command.line, ":", name);
    }
}

fn push_style(out: &mut Answer, style: &Style) {
    push_names(out, "fields=[", &style.fields);
    push_names(out, "] entry_numbers=[", &style.entry_numbers);
    push_names(out, "] entry_texts=[", &style.entry_texts);
    push_names(out, "] global_numbers=[", &style.global_numbers);
    push_names(out, "] global_texts=[", &style.global_texts);
    put!(out; "] macros=[");
    push_macros(out, style);
    put!(out; "] functions=[");
    push_functions(out, style);
    put!(out; "] commands=[");
    push_commands(out, style);
    put!(out; "]");
}

fn push_count(out: &mut Answer, reach: &Reach) {
    put!(out; reach.targets.len());
    put!(out; if reach.held { " held" } else { "" });
    put!(out; if reach.preamble { " preamble" } else { "" });
    put!(out; if reach.kind { " type" } else { "" });
}

/// What is reached from the function of a number, if the entry's type has the function of another number, or none: how
/// many names, or each of them.
fn push_reach(words: Words<'_>, out: &mut Answer, style: &Style) -> Done {
    let kind = words.word(3).parse::<usize>().ok();
    let reach = style.reach(words.alloc, Target::Function(words.count(2)), kind)?;
    if words.word(0) == "reach" {
        push_count(out, &reach);
        return Ok(());
    }
    for target in reach.targets.as_slice() {
        out.word(target_name(style, *target));
    }
    Ok(())
}

/// What a call shows of a style that was read.
fn push_read(words: Words<'_>, out: &mut Answer, style: &Style) -> Done {
    match words.word(0) {
        "read_style" => push_style(out, style),
        "chain" => put!(out; style.functions.len()),
        "reach" | "reached" => push_reach(words, out, style)?,
        _ => put!(out; "."),
    }
    Ok(())
}

/// What a call shows of a style with a fault.
fn push_fault(words: Words<'_>, out: &mut Answer, fault: StyleFault) {
    match words.word(0) {
        "chain" => put!(out; "0"),
        "reach" | "reached" => put!(out; "refused"),
        "fault_words" => out.put(fault.kind.words()),
        _ => {
            out.shown(&fault.kind);
            put!(out; " ", fault.line);
        }
    }
}

fn push_told(words: Words<'_>, out: &mut Answer, text: &[u8]) -> Done {
    match read_style(words.alloc, text) {
        Ok(style) => push_read(words, out, &style)?,
        Err(StyleRefusal::Fault { kind, line }) => push_fault(
            words,
            out,
            StyleFault { kind, line },
        ),
        Err(StyleRefusal::OutOfMemory) => return Err(AllocError),
    }
    Ok(())
}

/// A style with this number of functions after the first, with different names, each of which calls the one before.
fn chain(alloc: Global, functions: usize) -> Result<Vec<u8>, AllocError> {
    let mut text = Vec::from_slice(alloc, b"FUNCTION {f0}{}")?;
    for n in 0..functions {
        let next = n.saturating_add(1);
        text.extend_from_slice(format!(in alloc; "FUNCTION{{f{next}}}{{f{n}}}\n")?.as_bytes())?;
    }
    Ok(text)
}

/// How many prefixes of a text are read or refused, the empty one and the whole text included.
fn push_beginnings(words: Words<'_>, out: &mut Answer, text: &[u8]) -> Done {
    let mut count: usize = 0;
    for end in 0..=text.len() {
        if let Err(StyleRefusal::OutOfMemory) = read_style(words.alloc, &text[..end]) {
            return Err(AllocError);
        }
        count = count.saturating_add(1);
    }
    put!(out; count);
    Ok(())
}

pub fn push_answer(words: Words<'_>, out: &mut Answer) -> Done {
    match words.word(0) {
        "chain" => push_told(words, out, &chain(words.alloc, words.count(1))?),
        "beginnings" => push_beginnings(words, out, &words.text(1)?),
        _ => push_told(words, out, &words.text(1)?),
    }
}
