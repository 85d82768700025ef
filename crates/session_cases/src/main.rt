//! Tests of sessions and of what is built on them. The words of the command line say which:
//!
//! - `scripts` runs the script on standard input: runs of the command loop, a line `jobs`, cases of the one-shot form,
//!   a line `sessions`, and sessions that are edited;
//! - `calls` makes each call of `refused` while no memory is refused.
//!
//! `refused GROUP.NAME [PART]` makes one call, for a test that refuses memory from outside; the exit status says what
//! happened. `refused names` shows the names of all calls.
#![tactic(auto)]

mod inputs;
mod jobs;
mod loops;
mod refused;
mod script;
mod sessions;
mod tested;

use crate::jobs::Job;
use crate::loops::Loop;
use crate::script::{Script, answer_all};
use crate::sessions::Edited;
use anyhow::Result;
use bibtex::Session;
use std::env;
use std::io::Read;
use std::process::ExitCode;

fn answer_script(rt: &HostRuntime) -> Result<()> {
    let mut text = Vec::new(rt.alloc());
    rt.stdin().read_to_end(&mut text)?;
    let mut script = Script::new(text.as_slice());
    answer_all::<Loop>(rt, &mut script, "jobs")?;
    answer_all::<Job>(rt, &mut script, "sessions")?;
    answer_all::<Edited<Session>>(rt, &mut script, "end")
}

/// Makes all calls, and says whether each gave the right answer.
fn make_calls(rt: &HostRuntime) -> Result<bool> {
    let are_right = refused::all_are_right(rt.alloc())?;
    println!(rt; "calls: {}", if are_right { "right" } else { "wrong" })?;
    Ok(are_right)
}

/// Does what a word says. The answer is false if a call gives a wrong answer, or if there is no such word.
fn answer(rt: &HostRuntime, word: &str) -> Result<bool> {
    match word {
        "scripts" => {
            answer_script(rt)?;
            Ok(true)
        }
        "calls" => make_calls(rt),
        _ => {
            eprintln!(rt; "{word} is no word of this program")?;
            Ok(false)
        }
    }
}

fn answer_words(rt: &HostRuntime, words: &[String]) -> Result<ExitCode> {
    for word in words {
        if !answer(rt, word.as_str())? {
            return Ok(ExitCode::FAILURE);
        }
    }
    Ok(ExitCode::SUCCESS)
}

fn main(rt: HostRuntime) -> Result<ExitCode> {
    let words: Vec<String> = env::args(&rt)?.collect(rt.alloc())?;
    match words.as_slice() {
        [_, first, rest @ ..] if first.as_str() == "refused" => refused::call(&rt, rest),
        [_, rest @ ..] => answer_words(&rt, rest),
        [] => Ok(ExitCode::SUCCESS),
    }
}
