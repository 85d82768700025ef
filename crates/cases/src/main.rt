//! Answers cases of the lower crates' public calls: a line of input is a call, its answer a line of output.
//!
//! If a call runs out of memory, a line on standard error says so, and the call is made once more.
#![tactic(auto)]

mod answer;
mod aux_files;
mod databases;
mod faults;
mod held_lines;
mod logs;
mod name_tables;
mod names;
mod resolved;
mod sequences;
mod sparse_texts;
mod splices;
mod styles;
mod texts;
mod values;
mod words;

use answer::Answer;
use bt_text::Bytes;
use std::alloc::{AllocError, Global};
use std::io;
use std::io::{BufRead, BufReader, BufWriter, Write};
use words::Words;

/// Whether an answer could be given: the error is that memory ran out.
pub type Done = Result<(), AllocError>;

fn push_answer_of_texts(words: Words<'_>, out: &mut Answer) -> Done {
    match words.word(0) {
        "held" | "held_step_by_step" => held_lines::push_answer(words, out),
        "name_list" => name_tables::push_list_answer(words, out),
        "name_table" => name_tables::push_table_answer(words, out),
        "joined" | "appended" | "sequence" => sequences::push_answer(words, out),
        "sparse_texts" => sparse_texts::push_answer(words, out),
        "no_values" | "values" | "values_copied" | "values_of_texts" => {
            values::push_answer(words, out)
        }
        _ => texts::push_answer(words, out),
    }
}

fn push_answer(words: Words<'_>, out: &mut Answer) -> Done {
    match words.word(0) {
        "read_aux" | "read_citations" => aux_files::push_answer(words, out),
        "read_bib" | "item_count" | "last_fault" | "split_places" | "is_closed" => {
            databases::push_answer(words, out)
        }
        "respliced" | "respliced_anywhere" => splices::push_answer(words, out),
        "resolve" => resolved::push_answer(words, out),
        "count" | "parts" | "format" | "format_within" => names::push_answer(words, out),
        "read_style"
        | "first_fault"
        | "fault_words"
        | "beginnings"
        | "chain"
        | "reach"
        | "reached" => styles::push_answer(words, out),
        "log" | "lines" => logs::push_answer(words, out),
        "fault_names" => faults::push_answer(words, out),
        _ => push_answer_of_texts(words, out),
    }
}

fn answer_of(alloc: Global, case: &str) -> Result<Bytes, AllocError> {
    let mut out = Answer::new(alloc);
    push_answer(Words::of(alloc, case), &mut out)?;
    out.end()
}

/// The answer of a case; if memory ran out, that of a second try.
fn answer_in_the_end(rt: &HostRuntime, case: &str) -> io::Result<Bytes> {
    let alloc = rt.alloc();
    match answer_of(alloc, case) {
        Ok(told) => Ok(told),
        Err(AllocError) => {
            eprintln!(rt; "out of memory: once more")?;
            Ok(answer_of(alloc, case)?)
        }
    }
}

fn write_answer<W: Write>(rt: &HostRuntime, out: &mut W, case: &str) -> io::Result<()> {
    let told = answer_in_the_end(rt, case)?;
    out.write_all(told.as_slice())?;
    out.write_all(b"\n")
}

fn write_answers<W: Write>(rt: &HostRuntime, out: &mut W) -> io::Result<()> {
    let alloc = rt.alloc();
    for line in BufReader::new(alloc, rt.reader())?.lines(alloc) {
        write_answer(rt, out, line?.as_str())?;
    }
    Ok(())
}

fn main(rt: HostRuntime) -> io::Result<()> {
    let mut out = BufWriter::new(rt.alloc(), io::writer(&rt))?;
    write_answers(&rt, &mut out)?;
    out.flush()
}
