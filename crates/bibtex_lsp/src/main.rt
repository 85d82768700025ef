//! The program `bibtex-lsp`: a language server for the texts of BibTeX, over standard input and output.
#![tactic(auto)]

mod disk;
mod options;

ghost use Rattle.std.specs.Prelude.{◌<◌, ◌-◌, ◌^◌};

use crate::disk::Disk;
use crate::options::{Request, parse};
use anyhow::Result;
use bt_lsp::Server;
use bt_paper::{Options, SessionPaper};
use bt_places::Paper;
use bt_programs::VERSION;
use bt_remarks::Remarks;
use bt_streams::{LooksAhead, ReaderSource, Sink, Source, WriterSink};
use bt_talk::talk;
use std::alloc::AllocError;
use std::io::{BufReader, BufWriter, ErrorKind};
use std::process::ExitCode;
use std::{env, io, mem};

const HELP: &str = "\
usage: bibtex-lsp [--job=NAME] [--search=FOLDER]..

A language server for .bib, .aux, .tex and .bst files: an editor starts it and talks to it over
standard input and output.

  --job=NAME        the job, the name of its .aux file without .aux; the editor may name it
                    instead, by initializationOptions.job
  --search=FOLDER   also look for files there. The editor's folder comes first, the present one last
  --version         print the version
  --help            print this

Exit status: 0 after shutdown and exit, otherwise 1.";

/// Answers messages about a paper. It is generic, so that its proof doesn't follow a session's parts.
fn answer<S: Source + LooksAhead, K: Sink, P: Paper + Remarks + Drop>(
    rt: &HostRuntime,
    source: &mut S,
    sink: &mut K,
    paper: P,
) -> Result<ExitCode>
    requires reads { (S.seen source.old).failures < 2 ^ 64 - 1 }
    requires writes { (K.seen sink.old).failures < 2 ^ 64 - 1 }
{
    let alloc = rt.alloc();
    let mut server = Server::new(alloc, paper);
    let talked = talk(alloc, source, sink, &mut server);
    let is_shut_down = server.is_shut_down();
    // The process ends here, so nothing needs to be freed.
    mem::forget(server);
    match talked {
        Ok(over) => {
            if over && is_shut_down {
                Ok(ExitCode::SUCCESS)
            } else {
                Ok(ExitCode::FAILURE)
            }
        }
        Err(fault) => {
            eprintln!(rt; "bibtex-lsp: {fault:?}")?;
            Ok(ExitCode::FAILURE)
        }
    }
}

fn out_of_memory(rt: &HostRuntime) -> Result<ExitCode> {
    eprintln!(rt; "bibtex-lsp: out of memory")?;
    Ok(ExitCode::FAILURE)
}

fn serve(rt: &HostRuntime, options: Options) -> Result<ExitCode> {
    let alloc = rt.alloc();
    let Ok(reader) = BufReader::new(alloc, rt.stdin()) else {
        return out_of_memory(rt);
    };
    let Ok(writer) = BufWriter::new(alloc, io::writer(rt)) else {
        return out_of_memory(rt);
    };
    let mut source = ReaderSource::new(reader);
    let mut sink = WriterSink::new(writer);
    let paper = SessionPaper::new(alloc, Disk { rt }, options);
    answer(rt, &mut source, &mut sink, paper)
}

/// The words of the command line; `None` if memory ran out.
fn words(rt: &HostRuntime) -> Result<Option<Vec<String>>> {
    let args = match env::args(rt) {
        Ok(args) => args,
        Err(fault) if fault.kind() == ErrorKind::OutOfMemory => return Ok(None),
        Err(fault) => return Err(fault.into()),
    };
    let words: Result<Vec<String>, AllocError> = args.collect(rt.alloc());
    Ok(words.ok())
}

fn main(rt: HostRuntime) -> Result<ExitCode> {
    let Some(words) = words(&rt)? else {
        return out_of_memory(&rt);
    };
    match parse(rt.alloc(), words.as_slice()) {
        Ok(Request::Serve(options)) => serve(&rt, options),
        Ok(Request::Help) => {
            println!(rt; "{HELP}")?;
            Ok(ExitCode::SUCCESS)
        }
        Ok(Request::Version) => {
            println!(rt; "dulshenko {VERSION}")?;
            Ok(ExitCode::SUCCESS)
        }
        Ok(Request::Unknown) => {
            eprintln!(rt; "bibtex-lsp: no such option; bibtex-lsp --help shows all")?;
            Ok(ExitCode::FAILURE)
        }
        Err(_) => out_of_memory(&rt),
    }
}
