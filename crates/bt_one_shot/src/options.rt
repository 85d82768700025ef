//! The options of the command line.

ghost use Rattle.std.specs.Prelude.{◌≡◌, ◌≤◌, ℕ, true, List, [], map, string_bytes, codes, IfOk, IfErr};
ghost use Rattle.bibtex.specs.Present.{is_root_name};
ghost use Rattle.clap.specs.Kinds.{HasKind};
ghost use Rattle.clap.specs.Words.{first_of, found_of, one_of, rows_of};
ghost use Rattle.bt_one_shot.specs.Words.{asked, faults_of, is_set, min_of, without_aux};
ghost use Rattle.bt_one_shot.specs.Options.{IsFaultOf, asked_of};

use crate::words::command;
use bibtex::is_root_name;
use bt_text::Bytes;
use clap::ArgMatches;
use clap::error::ErrorKind;
use std::alloc::{AllocError, Global};
use thiserror::Error;

/// What a command line asks for.
#[derive(Drop)]
pub struct Options {
    /// The job's name, without `.aux`.
    pub root: Bytes,
    /// How many entries must refer to an uncited one before it is listed.
    pub min: u32,
    /// Whether the log is printed without the lines of files and the counts of calls.
    pub terse: bool,
    /// Whether commands are read from standard input.
    pub resident: bool,
}

/// Why a command line gives no options.
#[derive(Debug, Drop, Error)]
pub enum OptionsFault {
    /// The parser's fault, or the help that was asked for.
    #[error("Parser")]
    Parser(clap::Error),
    /// The job's name isn't one of 1 to 60 ASCII letters, digits or `. - _ + /`.
    #[error("BadJobName")]
    BadJobName,
    /// Out of memory.
    #[error("OutOfMemory")]
    OutOfMemory,
}

impl From<AllocError> for OptionsFault {
    ghost use Rattle.std.specs.Prelude.{◌≡◌};
    ghost use Rattle.bt_one_shot.specs.declared.options.OptionsFault.TheVariants.{OutOfMemory};

    ghost from_gives = { λ _ e. e ≡ OutOfMemory };

    fn from(_value: AllocError) -> Self {
        OptionsFault::OutOfMemory
    }
}

fn told(fault: clap::Error) -> OptionsFault
    ensures { (words : List (List ℕ)) → HasKind (faults_of words) fault → IsFaultOf words result }
{
    if fault.kind() == ErrorKind::OutOfMemory {
        OptionsFault::OutOfMemory
    } else {
        OptionsFault::Parser(fault)
    }
}

fn without_aux(job: &[u8]) -> &[u8]
    ensures { result.now ≡ without_aux job.now }
{
    if job.ends_with(b".aux") {
        &job[..job.len() - 4]
    } else {
        job
    }
}

fn min_found(matches: &ArgMatches<'_>) -> u32
    ensures value { result ≡ min_of (one_of (codes "min-crossrefs") (rows_of (found_of matches.now))) }
    ensures bound { result ≤ 65535 }
{
    u32::from(matches.get_one::<u16>("min-crossrefs").unwrap_or(2))
}

fn is_set(matches: &ArgMatches<'_>, name: &str) -> bool
    ensures { result ≡ is_set (first_of name.now (rows_of (found_of matches.now))) }
{
    match matches.get_str(name) {
        Some(text) => text == "true",
        None => false,
    }
}

/// What these words ask for, the first of which is the program's name. An `.aux` at the end of the job's name is
/// dropped. The error is `Parser` for words that the parser doesn't accept, and for `--help`; `BadJobName` for a name
/// that a root can't have; or out of memory instead of either.
pub fn parse_options(alloc: Global, words: &[String]) -> Result<Options, OptionsFault>
    ensures taken { IfOk result (λ _. faults_of (map string_bytes words.now) ≡ []) }
    ensures asked { IfOk result (λ options. asked_of options ≡ asked (map string_bytes words.now)) }
    ensures root { IfOk result (λ options. is_root_name options.root ≡ true) }
    ensures min { IfOk result (λ options. options.min ≤ 65535) }
    ensures fault { IfErr result (IsFaultOf (map string_bytes words.now)) }
{
    let matches = match command(alloc)?.try_get_matches_from(words) {
        Ok(matches) => matches,
        Err(fault) => return Err(told(fault)),
    };
    let root = without_aux(matches.get_str("JOB").unwrap_or("").as_bytes());
    if !is_root_name(root) {
        return Err(OptionsFault::BadJobName);
    }
    Ok(Options {
        root: Bytes::copied(alloc, root)?,
        min: min_found(&matches),
        terse: is_set(&matches, "terse"),
        resident: is_set(&matches, "resident"),
    })
}
