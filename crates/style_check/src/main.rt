//! The program `bibtex-check`, which finds what databases can make a style do wrong.
#![tactic(auto)]

mod json;
mod options;
mod report;

use crate::options::{Format, Options, Request, parse};
use crate::report::{Checked, UNKNOWN};
use bt_check::{FaultKind, check, lint};
use bt_programs::{VERSION, read, words};
use bt_sound::is_sound;
use bt_style::{Style, StyleRefusal, read_style};
use bt_text::Bytes;
use bt_witness::{Effort, witnesses};
use std::alloc::{AllocError, Global};
use std::io::Write;
use std::process::ExitCode;

/// How many steps the analysis of a style may take: most styles take less than a tenth of them.
const WORK: u64 = 2_000_000;

/// How much work the proof that a style is sound may take: half a second. Most styles take less than a fifth of it.
const PROOF_WORK: u64 = 1_000_000;

const HELP: &str = "\
usage: bibtex-check [--lint] [--types] [--format=text|json] STYLE..

Finds what some database can make a style do wrong. It needs no database. STYLE is the file of
a style, such as plain.bst.

  --lint          also name what the style defines and doesn't use, and what it lacks
  --types         also list the entry types that the check takes for the style's
  --format=json   print a JSON object a line
  --version       print the version
  --help          print this

Exit status: 0 if nothing was found, 1 for findings of --lint alone, 2 for faults, 3 if a style
can't be read or the analysis gave up, or if the command line is wrong. That a style is accepted
is proved. That no fault was found isn't a proof.";

/// What is printed of a style, and its exit status.
type Printed = (Bytes, u8);

/// Whether a style that is proved to be sound has no fault of this kind.
fn is_excluded(kind: FaultKind) -> bool {
    matches!(
        kind,
        FaultKind::Empty
            | FaultKind::Kind
            | FaultKind::Entry
            | FaultKind::Variable
            | FaultKind::Left
    )
}

fn check_style<'a>(
    alloc: Global,
    path: &'a str,
    text: &[u8],
    style: &'a Style,
    options: Options,
) -> Result<Checked<'a>, AllocError> {
    let mut findings = check(alloc, style, text, WORK)?;
    let witnesses = witnesses(
        alloc,
        style,
        text,
        findings.faults.as_slice(),
        Effort::Thorough,
    )?;
    let is_sound = !findings.gave_up
        && witnesses.iter().all(|witness| witness.is_none())
        && is_sound(alloc, style, findings.types.as_slice(), PROOF_WORK)?;
    if is_sound {
        findings.faults.retain(|fault| !is_excluded(fault.kind));
    }
    let hints = if options.lints {
        lint(alloc, style, text, &findings)?
    } else {
        Vec::new(alloc)
    };
    Ok(Checked {
        alloc,
        path,
        style,
        findings,
        witnesses,
        is_sound,
        hints,
        shows_types: options.shows_types,
    })
}

fn print_style<'a>(
    alloc: Global,
    path: &'a str,
    text: &[u8],
    style: &'a Style,
    options: Options,
) -> Result<Printed, AllocError> {
    let checked = check_style(alloc, path, text, style, options)?;
    let status = checked.status();
    let printed = match options.format {
        Format::Text => report::in_words(&checked)?,
        Format::Json => json::objects(&checked)?,
    };
    Ok((printed, status))
}

fn print_refusal(
    alloc: Global,
    path: &str,
    line: usize,
    words: &[u8],
    options: Options,
) -> Result<Printed, AllocError> {
    let printed = match options.format {
        Format::Text => report::refused(alloc, path, line, words)?,
        Format::Json => json::refused(alloc, path, line, words)?,
    };
    Ok((printed, UNKNOWN))
}

fn print_text(
    alloc: Global,
    path: &str,
    text: &[u8],
    options: Options,
) -> Result<Printed, AllocError> {
    match read_style(alloc, text) {
        Ok(style) => print_style(alloc, path, text, &style, options),
        Err(StyleRefusal::Fault { kind, line }) => {
            print_refusal(alloc, path, line, kind.words(), options)
        }
        Err(StyleRefusal::OutOfMemory) => Err(AllocError),
    }
}

fn check_file(rt: &HostRuntime, path: &str, options: Options) -> Result<u8, AllocError> {
    let Some(text) = read(rt.alloc(), rt, path)? else {
        let _ = eprintln!(rt; "bibtex-check: can't read {path}");
        return Ok(UNKNOWN);
    };
    let (printed, status) = print_text(rt.alloc(), path, text.as_slice(), options)?;
    let mut out = rt.stdout();
    if out.write_all(printed.as_slice()).is_err() {
        let _ = eprintln!(rt; "bibtex-check: can't write the report on {path}");
        return Ok(UNKNOWN);
    }
    Ok(status)
}

fn check_files(rt: &HostRuntime, options: Options, paths: &[&str]) -> Result<u8, AllocError> {
    let mut status = 0;
    for path in paths {
        status = check_file(rt, *path, options)?.max(status);
    }
    Ok(status)
}

fn refuse(rt: &HostRuntime, request: &Request<'_>) -> u8 {
    let _ = match request {
        Request::UnknownOption(word) => eprintln!(rt;
            "bibtex-check: there is no option {word}; bibtex-check --help shows all"
        ),
        _ => eprintln!(rt;
            "bibtex-check: name a style, as in bibtex-check plain.bst; bibtex-check --help shows more"
        ),
    };
    UNKNOWN
}

fn answer(rt: &HostRuntime) -> Result<u8, AllocError> {
    let Some(words) = words(rt)? else {
        let _ = eprintln!(rt; "bibtex-check: the command line isn't UTF-8");
        return Ok(UNKNOWN);
    };
    match parse(rt.alloc(), words.as_slice())? {
        Request::Check(options, paths) => check_files(rt, options, paths.as_slice()),
        Request::Help => {
            let _ = println!(rt; "{HELP}");
            Ok(0)
        }
        Request::Version => {
            let _ = println!(rt; "dulshenko {VERSION}");
            Ok(0)
        }
        request => Ok(refuse(rt, &request)),
    }
}

fn out_of_memory(rt: &HostRuntime) -> ExitCode {
    let _ = eprintln!(rt; "bibtex-check: out of memory");
    ExitCode::from(UNKNOWN)
}

fn main(rt: HostRuntime) -> ExitCode {
    match answer(&rt) {
        Ok(status) => ExitCode::from(status),
        Err(_) => out_of_memory(&rt),
    }
}
