//! The words of the command line.

ghost use Rattle.std.specs.Prelude.{◌≡◌, false, IfOk};
ghost use Rattle.clap.specs.Words.{app_of, rule_of};
ghost use Rattle.bt_one_shot.specs.Words.{command_line, job_rule, min_rule, resident_rule, terse_rule};

use clap::{Arg, ArgAction, Command, value_parser};
use std::alloc::{AllocError, Global};

const ABOUT: &str = "\
Writes the bibliography of a LaTeX document: reads what JOB.aux cites, looks it up in the
databases (.bib) that it names, and writes JOB.bbl as its style (.bst) says. JOB.blg gets
the log, which is also printed. All files are looked for in the folder that it is started
in, by the names that the document gives; there is no search path.";

const EXAMPLE: &str = "\
Example: after `latex paper`, run `bibtex paper`, and then `latex paper` twice. An editor
starts `bibtex --resident paper` once, writes commands to it and reads their answers:
write, splice, remove, root, min, bbl, blg, status, quit.

Exit status: 0 if there were warnings at most, 2 if there were errors, 3 after a fatal
error or if a file can't be written, 1 if the command line is wrong.";

fn job(alloc: Global) -> Arg<'static>
    ensures rule { rule_of result ≡ job_rule }
    ensures own { result.global ≡ false }
{
    Arg::new(alloc, "JOB")
        .required(true)
        .action(ArgAction::Set)
        .help("The document, with or without .aux: 1 to 60 letters, digits or . - _ + /")
}

fn min_crossrefs(alloc: Global) -> Arg<'static>
    ensures rule { rule_of result ≡ min_rule }
    ensures own { result.global ≡ false }
{
    Arg::new(alloc, "min-crossrefs")
        .long("min-crossrefs")
        .value_name("N")
        .value_parser(value_parser!(u16))
        .default_value("2")
        .help("List an uncited entry that so many entries refer to, 0 to 65535")
}

fn terse(alloc: Global) -> Arg<'static>
    ensures rule { rule_of result ≡ terse_rule }
    ensures own { result.global ≡ false }
{
    Arg::new(alloc, "terse")
        .long("terse")
        .action(ArgAction::SetTrue)
        .help("Print the log without the names of the files and the counts of calls")
}

fn resident(alloc: Global) -> Arg<'static>
    ensures rule { rule_of result ≡ resident_rule }
    ensures own { result.global ≡ false }
{
    Arg::new(alloc, "resident")
        .long("resident")
        .action(ArgAction::SetTrue)
        .help("Answer commands of standard input; read and write no file")
}

/// The command line: what it takes, and what `--help` prints.
pub fn command<'a>(alloc: Global) -> Result<Command<'a>, AllocError>
    ensures { IfOk result (λ c. app_of c ≡ command_line) }
{
    Command::new(alloc, "bibtex")
        .about(ABOUT)
        .after_help(EXAMPLE)
        .arg(min_crossrefs(alloc))?
        .arg(terse(alloc))?
        .arg(resident(alloc))?
        .arg(job(alloc))
}
