//! The program that runs one job for LaTeX's tools. The shell script `bibtex` starts it, and does what a Rattle program
//! can't: it calls `kpsewhich`, and starts another `bibtex`.
#![tactic(auto)]

mod disk;
mod guard;
mod hints;
mod options;
mod report;
mod takeover;

use crate::disk::Output;
use crate::guard::Rule;
use crate::options::{Options, Request, parse};
use crate::report::complain;
use bt_job::File;
use bt_log::{Message, log_bytes};
use bt_programs::{VERSION, words};
use bt_run::Answers;
use bt_search::{FILES_WANTED, HAND_OVER, Script, Search};
use bt_text::Bytes;
use std::alloc::{AllocError, Global};
use std::fs;
use std::mem::forget;
use std::process::ExitCode;

/// The exit status if the job can't be run.
const NOT_RUN: u8 = 1;

/// The exit status if a file can't be written.
const NOT_WRITTEN: u8 = 3;

fn out_of_memory(rt: &HostRuntime) -> ExitCode {
    complain(rt, &[b"bibtex: out of memory\n"]);
    ExitCode::FAILURE
}

/// Asks the script to find missing files, if there are any that it hasn't looked for. The exit status shows whether
/// that succeeded.
fn ask_for_files(
    rt: &HostRuntime,
    script: &Script,
    missing: &[Bytes],
) -> Result<Option<u8>, AllocError> {
    match script.ask_for_files(rt, missing)? {
        None => return Ok(None),
        Some(true) => return Ok(Some(FILES_WANTED)),
        Some(false) => {}
    }
    complain(
        rt,
        &[
            b"bibtex: files are missing, and kpsewhich can't be asked for them, because there is no /dev/fd\n",
        ],
    );
    Ok(Some(NOT_RUN))
}

fn in_a_line(alloc: Global, message: &Message) -> Result<Bytes, AllocError> {
    let shared = [message.share()?];
    let words = log_bytes(alloc, &shared)?;
    let first = words.as_slice().split(|byte| *byte == b'\n').next();
    Bytes::copied(alloc, first.unwrap_or(b""))
}

/// Why another program should do the job, if one may and should.
fn reason(
    rt: &HostRuntime,
    script: &Script,
    search: &Search<'_>,
    answers: &Answers,
) -> Result<Option<Bytes>, AllocError> {
    let alloc = rt.alloc();
    if !script.hands_over(rt)? {
        return Ok(None);
    }
    if search.has_unreadable() {
        return Ok(Some(Bytes::copied(alloc, b"a file's name or folder isn't UTF-8")?));
    }
    match takeover::reason(answers) {
        Some(message) => Ok(Some(in_a_line(alloc, message)?)),
        None => Ok(None),
    }
}

fn cannot_write(rt: &HostRuntime, path: &str) {
    let _ = eprintln!(rt; "bibtex: can't write {path}");
}

/// Replaces both files of the job, or leaves both as they are and reports which one can't be written.
fn write(
    rt: &HostRuntime,
    script: &Script,
    job: &str,
    answers: &Answers,
) -> Result<bool, AllocError> {
    let alloc = rt.alloc();
    let bbl_path = format!(in alloc; "{job}.bbl")?;
    let blg_path = format!(in alloc; "{job}.blg")?;
    let (bbl_path, blg_path) = (bbl_path.as_str(), blg_path.as_str());
    let (bbl, blg) = (answers.bbl.as_slice(), answers.blg.as_slice());
    let Some(bbl) = Output::new(alloc, rt, bbl_path, bbl, script.mark())? else {
        cannot_write(rt, bbl_path);
        return Ok(false);
    };
    let Some(blg) = Output::new(alloc, rt, blg_path, blg, script.mark())? else {
        cannot_write(rt, blg_path);
        return Ok(false);
    };
    if !bbl.put() {
        cannot_write(rt, bbl_path);
        return Ok(false);
    }
    if !blg.put() {
        cannot_write(rt, blg_path);
        return Ok(false);
    }
    Ok(true)
}

/// Writes both files, prints the messages of the run, and returns the exit status.
fn finish(
    rt: &HostRuntime,
    script: &Script,
    options: &Options<'_>,
    answers: &Answers,
) -> Result<u8, AllocError> {
    let printed = report::printed(rt.alloc(), answers, options.terse)?;
    if !write(rt, script, options.job, answers)? {
        return Ok(NOT_WRITTEN);
    }
    report::print(rt, printed.as_slice());
    Ok(if answers.status <= 1 {
        0
    } else {
        answers.status
    })
}

fn hint(rt: &HostRuntime, options: &Options<'_>, files: &[File], run: &Answers, status: u8) {
    if options.quiet || status == NOT_WRITTEN {
        return;
    }
    let job = hints::Job {
        name: options.job,
        files,
        run,
    };
    let _ = hints::print(rt, job);
}

/// Runs the job over the files that were found.
fn run_found(
    rt: &HostRuntime,
    script: &Script,
    options: &Options<'_>,
    search: &Search<'_>,
) -> Result<u8, AllocError> {
    let files = search.files();
    let run = bt_front::run(
        rt.alloc(),
        files,
        options.job.as_bytes(),
        u32::from(options.min),
    )?;
    if options.may_hand_over
        && let Some(reason) = reason(rt, script, search, &run)?
        && script.ask(rt, reason.as_slice())
    {
        return Ok(HAND_OVER);
    }
    let status = finish(rt, script, options, &run)?;
    hint(rt, options, files, &run, status);
    // The program ends here, which frees everything at once.
    forget(run);
    Ok(status)
}

fn is_there(rt: &HostRuntime, job: &str) -> Result<bool, AllocError> {
    let path = format!(in rt.alloc(); "{job}.aux")?;
    Ok(fs::metadata(rt, path.as_str()).is_ok())
}

/// Looks up the job's files and runs it, or asks the script for help.
fn run_job(rt: &HostRuntime, script: &Script, options: &Options<'_>) -> Result<u8, AllocError> {
    let mut search = Search::new(rt.alloc(), rt, script, options.job);
    search.run(options.job)?;
    if search.files().is_empty() {
        let _ = eprintln!(rt; "I couldn't open file name `{}.aux'", options.job);
        if !options.quiet && !is_there(rt, options.job)? {
            let _ = eprintln!(rt; "hint: run latex first; it writes {}.aux", options.job);
        }
        return Ok(NOT_RUN);
    }
    match ask_for_files(rt, script, search.missing())? {
        Some(status) => Ok(status),
        None => run_found(rt, script, options, &search),
    }
}

/// Runs the job, unless its files may not be written.
fn run(rt: &HostRuntime, options: &Options<'_>) -> Result<u8, AllocError> {
    let script = Script::of(rt)?;
    let rule = match &script.rule {
        Some(letter) => Rule::of(letter.as_str()),
        None => Rule::Paranoid,
    };
    let output = match &script.output {
        Some(folder) => Some(folder.as_str()),
        None => None,
    };
    // The .bbl is in the same folder, and is hidden if the .blg is.
    let log = format!(in rt.alloc(); "{}.blg", options.job)?;
    if !rule.admits(log.as_str(), output) {
        let _ = eprintln!(rt;
            "bibtex: Not writing to {log} (openout_any = {}).",
            rule.letter()
        );
        return Ok(NOT_RUN);
    }
    run_job(rt, &script, options)
}

/// What is done with a command line that isn't UTF-8, whose files this program can't read.
fn refuse_words(rt: &HostRuntime) -> Result<u8, AllocError> {
    let fault: &[u8] = b"the command line isn't UTF-8";
    let script = Script::of(rt)?;
    if script.hands_over(rt)? && script.ask(rt, fault) {
        return Ok(HAND_OVER);
    }
    complain(rt, &[b"bibtex: ", fault, b"\n"]);
    Ok(NOT_RUN)
}

fn answer(rt: &HostRuntime) -> Result<u8, AllocError> {
    let Some(words) = words(rt)? else {
        return refuse_words(rt);
    };
    match parse(words.as_slice()) {
        Request::Run(options) => run(rt, &options),
        Request::Help => {
            let _ = println!(rt; "{}", report::HELP);
            Ok(0)
        }
        Request::Version => {
            let _ = println!(rt; "dulshenko {VERSION} (BibTeX 0.99d)");
            Ok(0)
        }
        Request::Wrong(wrong) => {
            report::refuse(rt, wrong);
            Ok(NOT_RUN)
        }
    }
}

fn main(rt: HostRuntime) -> ExitCode {
    match answer(&rt) {
        Ok(status) => ExitCode::from(status),
        Err(_) => out_of_memory(&rt),
    }
}
