//! Cases of the command line and of the one-shot form, over a folder in memory, and the result of each.

ghost use Rattle.std.specs.Prelude.{◌≡◌, ◌<◌, ◌^◌, ◌-◌, true};
ghost use Rattle.bibtex.specs.Present.{is_root_name};

use crate::script::{Case, Script, number, split, text};
use anyhow::Result;
use bt_one_shot::{Folder, Options, OptionsFault, one_shot, parse_options};
use bt_streams::Sink;
use fakes::{Limits, Memory, Taker};
use std::alloc::{AllocError, Global};
use std::cell::Cell;

fn words_of(alloc: Global, line: &str) -> Result<Vec<String>, AllocError> {
    let mut all = Vec::new(alloc);
    all.push(String::from_str(alloc, "bibtex")?)?;
    if let Some((_, words)) = line.split_once(' ') {
        for word in words.split('|') {
            all.push(String::from_str(alloc, word)?)?;
        }
    }
    Ok(all)
}

fn tell_fault(rt: &HostRuntime, fault: &OptionsFault) -> Result<()> {
    match fault {
        OptionsFault::Parser(fault) if fault.exit_code() == 0 => println!(rt; "help")?,
        OptionsFault::Parser(_) => println!(rt; "usage fault")?,
        OptionsFault::BadJobName => println!(rt; "bad job name")?,
        OptionsFault::OutOfMemory => println!(rt; "out of memory")?,
    }
    Ok(())
}

/// Shows the fault that words have, if they have one, and each fault that isn't the parser's.
fn show_faults(rt: &HostRuntime, words: &[String]) -> Result<()> {
    if let Err(fault) = parse_options(rt.alloc(), words) {
        println!(rt; "{fault}")?;
    }
    println!(rt; "{}", OptionsFault::BadJobName)?;
    println!(rt; "{}", OptionsFault::OutOfMemory)?;
    Ok(())
}

fn tell_options(rt: &HostRuntime, options: &Options) -> Result<()> {
    let (root, min) = (text(options.root.as_slice()), options.min);
    let (terse, resident) = (options.terse, options.resident);
    println!(rt; "root {root} min {min} terse {terse} resident {resident}")?;
    Ok(())
}

/// Runs a job. It is generic and ensures nothing, so its callers don't carry along what is proved of the run.
fn run_job<F: Folder, O: Sink, E: Sink>(
    alloc: Global,
    options: &Options,
    out: &mut O,
    err: &mut E,
    folder: &mut F,
) -> Result<u8, AllocError>
    requires root { is_root_name options.now.root ≡ true }
    requires folder { (F.seen folder.old).failures < 2 ^ 64 - 1 }
    requires out { (O.seen out.old).failures < 2 ^ 64 - 1 }
    requires err { (E.seen err.old).failures < 2 ^ 64 - 1 }
{
    one_shot(alloc, options, folder, out, err)
}

fn tell_bytes(rt: &HostRuntime, title: &str, bytes: &[u8]) -> Result<()> {
    print!(rt; "{title} {}\n{}", bytes.len(), text(bytes))?;
    Ok(())
}

fn tell_ended(rt: &HostRuntime, status: u8, folder: &Memory, out: &[u8], err: &[u8]) -> Result<()> {
    println!(rt; "exit {status}")?;
    tell_bytes(rt, "read", folder.read_lines())?;
    for file in folder.written() {
        tell_bytes(rt, text(file.name.as_slice()), file.bytes.as_slice())?;
    }
    tell_bytes(rt, "out", out)?;
    tell_bytes(rt, "err", err)
}

fn run(rt: &HostRuntime, options: &Options, folder: &mut Memory, room: (usize, usize)) -> Result<()>
    requires root { is_root_name options.now.root ≡ true }
    requires folder { (⟦<Memory as Folder>⟧.seen folder.old).failures < 2 ^ 64 - 1 }
{
    let alloc = rt.alloc();
    let handed_on = Cell::new(0);
    let mut out = Taker::new(alloc, Limits::writes_up_to(room.0), &handed_on);
    let mut err = Taker::new(alloc, Limits::writes_up_to(room.1), &handed_on);
    let status = run_job(alloc, options, &mut out, &mut err, folder)?;
    tell_ended(rt, status, folder, out.bytes(), err.bytes())
}

/// Prints what a command line asks for, or its fault.
fn tell_line(rt: &HostRuntime, words: &[String]) -> Result<()> {
    match parse_options(rt.alloc(), words) {
        Ok(options) => tell_options(rt, &options),
        Err(fault) => tell_fault(rt, &fault),
    }
}

/// Runs the job of a command line and prints the result, or prints the fault of the command line.
fn tell_run(
    rt: &HostRuntime,
    words: &[String],
    folder: &mut Memory,
    room: (usize, usize),
) -> Result<()> {
    match parse_options(rt.alloc(), words) {
        Ok(options) if folder.failures() < u64::MAX => run(rt, &options, folder, room),
        Ok(_) => Ok(()),
        Err(fault) => tell_fault(rt, &fault),
    }
}

/// A folder, and how many bytes standard output and standard error accept.
#[derive(Drop)]
pub struct Job {
    folder: Memory,
    out: usize,
    err: usize,
}

impl Job {
    fn answer(&mut self, rt: &HostRuntime, word: &str, line: &str) -> Result<()> {
        let words = words_of(rt.alloc(), line)?;
        match word {
            "faults" => show_faults(rt, &words),
            "run" => tell_run(rt, &words, &mut self.folder, (self.out, self.err)),
            _ => tell_line(rt, &words),
        }
    }
}

impl Case for Job {
    fn begun(rt: &HostRuntime) -> Result<Self> {
        Ok(Job {
            folder: Memory::new(rt.alloc()),
            out: usize::MAX,
            err: usize::MAX,
        })
    }

    /// `file NAME LEN` with LEN bytes, `letters NAME LEN`: a file of the folder. `no_room NAME`: a file for whose bytes
    /// there is no memory. `unwritable NAME`: a file that can't be written. `out LEN`, `err LEN`: how many bytes they
    /// accept. `options WORD|WORD|..`, `run ..`, `faults ..`: a command line.
    fn carry_out<'a>(
        &mut self,
        rt: &HostRuntime,
        line: &'a str,
        script: &mut Script<'a>,
    ) -> Result<()> {
        let (word, words) = split(line);
        let (name, count) = split(words);
        match word {
            "file" => self.folder.give(name, script.bytes(number(count)))?,
            "letters" => self.folder.give_letters(name, number(count))?,
            "no_room" => self.folder.deny_room(words)?,
            "unwritable" => self.folder.seal(words)?,
            "out" => self.out = number(words),
            "err" => self.err = number(words),
            _ => self.answer(rt, word, line)?,
        }
        Ok(())
    }
}
