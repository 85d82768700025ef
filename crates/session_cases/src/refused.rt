//! Calls of the libraries in which one request for memory may be refused, and their results. The words are a case,
//! `GROUP.NAME`, and how much of it is run: `setup` makes only the value for its call, `call` also makes the call;
//! without a second word, the result is judged too.

mod attempt;
mod databases;
mod free;
mod growing;
mod refusing;
mod steps;

use crate::refused::attempt::{Part, Verdict, verdict_on};
use crate::refused::databases::Rereading;
use crate::refused::free::verdict_on_free;
use crate::refused::growing::Growing;
use crate::refused::steps::Step;
use std::alloc::{AllocError, Global};
use std::process::ExitCode;

/// The names of all cases, by groups. The calls of `free` allocate nothing.
const CASES: &[(&str, &str)] = &[
    (
        "growing",
        "append push append-list push-name insert make-room set write write-a-word newline",
    ),
    ("databases", "splice"),
    ("steps", "activate reach"),
    ("free", "texts names full-line meter agreement refusing"),
];

fn verdict_of(alloc: Global, group: &str, name: &str, part: Part) -> Result<Verdict, AllocError> {
    match group {
        "growing" => verdict_on::<Growing>(alloc, name, part),
        "databases" => verdict_on::<Rereading>(alloc, name, part),
        "steps" => verdict_on::<Step>(alloc, name, part),
        _ => verdict_on_free(alloc, name, part),
    }
}

/// Whether each call gives the right answer without being refused memory.
pub fn all_are_right(alloc: Global) -> Result<bool, AllocError> {
    for (group, names) in CASES {
        for name in names.split(' ') {
            if verdict_of(alloc, group, name, Part::Whole)? != Verdict::NotRefused {
                return Ok(false);
            }
        }
    }
    Ok(true)
}

fn show_names(rt: &HostRuntime) -> anyhow::Result<ExitCode> {
    for (group, names) in CASES {
        for name in names.split(' ') {
            println!(rt; "{group}.{name}")?;
        }
    }
    Ok(ExitCode::SUCCESS)
}

fn part_of(word: &str) -> Part {
    match word {
        "setup" => Part::Setup,
        "call" => Part::Call,
        _ => Part::Whole,
    }
}

/// The verdict on a case, as an exit status. 0: its call wasn't refused memory. 10: it was, its value was as before,
/// and the repeated call gave the right answer. 11: something was lost. 12: a request outside of the call was refused.
fn status_of(alloc: Global, case: &str, part: Part) -> ExitCode {
    let (group, name) = case.split_once('.').unwrap_or((case, ""));
    match verdict_of(alloc, group, name, part) {
        Ok(Verdict::NotRefused) => ExitCode::SUCCESS,
        Ok(Verdict::Kept) => ExitCode::from(10),
        Ok(Verdict::Lost) => ExitCode::from(11),
        Err(AllocError) => ExitCode::from(12),
    }
}

/// Makes the call that the words name, or shows the names of all calls.
pub fn call(rt: &HostRuntime, words: &[String]) -> anyhow::Result<ExitCode> {
    match words {
        [word] if word.as_str() == "names" => show_names(rt),
        [case] => Ok(status_of(rt.alloc(), case.as_str(), Part::Whole)),
        [case, part] => Ok(status_of(rt.alloc(), case.as_str(), part_of(part.as_str()))),
        _ => Ok(ExitCode::from(11)),
    }
}
