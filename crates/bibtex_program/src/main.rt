//! The program `bibtex`: writes the bibliography of a document once, or stays and answers commands.
#![tactic(auto)]

mod disk;

ghost use Rattle.std.specs.Prelude.{◌≡◌, true};
ghost use Rattle.bibtex.specs.Present.{is_root_name};

use crate::disk::Disk;
use anyhow::Result;
use bibtex::Session;
use bt_one_shot::{Options, OptionsFault, one_shot, parse_options};
use bt_serve::{ServeFault, serve};
use bt_streams::{ReaderSource, WriterSink};
use std::alloc::{AllocError, Global};
use std::io::{BufReader, BufWriter, ErrorKind, Read, Write};
use std::process::ExitCode;
use std::{env, io};

fn out_of_memory(rt: &impl Eprint) -> Result<ExitCode> {
    eprintln!(rt; "bibtex: out of memory")?;
    Ok(ExitCode::FAILURE)
}

/// Prints the help that was asked for, or reports why the command line can't be carried out.
fn refuse(rt: &(impl Print + Eprint), fault: OptionsFault) -> Result<ExitCode> {
    match fault {
        OptionsFault::Parser(fault) => {
            fault.print(rt)?;
            Ok(ExitCode::from(if fault.exit_code() == 0 { 0 } else { 1 }))
        }
        OptionsFault::BadJobName => {
            eprintln!(rt; "bibtex: bad job name")?;
            Ok(ExitCode::FAILURE)
        }
        OptionsFault::OutOfMemory => out_of_memory(rt),
    }
}

/// Answers the commands that a reader gives, up to the end of the input or a fault.
fn answer<R: Read + Drop, W: Write + Drop>(
    alloc: Global,
    reader: R,
    writer: W,
    session: &mut Session,
) -> Result<(), ServeFault> {
    let mut source = ReaderSource::new(reader);
    let mut sink = WriterSink::new(writer);
    serve(alloc, &mut source, &mut sink, session)
}

/// Reports the fault of a command loop, if it ended with one.
fn end(rt: &HostRuntime, answered: Result<(), ServeFault>) -> Result<ExitCode> {
    match answered {
        Ok(()) => Ok(ExitCode::SUCCESS),
        Err(fault) => {
            eprintln!(rt; "bibtex: fault {}", fault.number())?;
            Ok(ExitCode::FAILURE)
        }
    }
}

/// Answers the commands of standard input on standard output.
fn stay(rt: &HostRuntime, options: &Options) -> Result<ExitCode> {
    let alloc = rt.alloc();
    let Ok(reader) = BufReader::new(alloc, rt.stdin()) else {
        return out_of_memory(rt);
    };
    let Ok(writer) = BufWriter::new(alloc, io::writer(rt)) else {
        return out_of_memory(rt);
    };
    match Session::new(alloc, options.root.as_slice(), options.min) {
        Ok(mut session) => {
            let answered = answer(alloc, reader, writer, &mut session);
            drop(session);
            end(rt, answered)
        }
        Err(_) => out_of_memory(rt),
    }
}

/// Runs the job once, in the folder that the program was started in.
fn run_once(rt: &HostRuntime, options: &Options) -> Result<ExitCode>
    requires { is_root_name options.now.root ≡ true }
{
    let alloc = rt.alloc();
    let mut folder = Disk::new(alloc, rt);
    let mut out = WriterSink::new(io::writer(rt));
    let mut err = WriterSink::new(rt.stderr());
    match one_shot(alloc, options, &mut folder, &mut out, &mut err) {
        Ok(status) => Ok(ExitCode::from(status)),
        Err(_) => out_of_memory(rt),
    }
}

/// The words of the command line; `None` if memory ran out.
fn words(rt: &HostRuntime) -> Result<Option<Vec<String>>> {
    let args = match env::args(rt) {
        Ok(args) => args,
        Err(fault) if fault.kind() == ErrorKind::OutOfMemory => return Ok(None),
        Err(fault) => return Err(fault.into()),
    };
    let words: Result<Vec<String>, AllocError> = args.collect(rt.alloc());
    Ok(words.ok())
}

fn main(rt: HostRuntime) -> Result<ExitCode> {
    let Some(words) = words(&rt)? else {
        return out_of_memory(&rt);
    };
    match parse_options(rt.alloc(), words.as_slice()) {
        Ok(options) if options.resident => stay(&rt, &options),
        Ok(options) => run_once(&rt, &options),
        Err(fault) => refuse(&rt, fault),
    }
}
