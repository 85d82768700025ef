//! Runs of the command loop over sources and sinks that fail or move few bytes at a time, and the result of each.

use crate::script::{Case, Script, number, split, text};
use crate::tested::Tested;
use anyhow::Result;
use bibtex::{Refusal, Session};
use bt_serve::ServeFault;
use bt_streams::StreamFailed;
use fakes::{Giver, Limits, Taker};
use std::alloc::{AllocError, Global};
use std::cell::Cell;
use std::fmt::Display;

fn tell<S: Tested>(
    rt: &HostRuntime,
    ended: Result<(), ServeFault>,
    session: &S,
    source: &Giver<'_>,
    sink: &Taker<'_>,
) -> Result<()> {
    match ended {
        Ok(()) => print!(rt; ": Ok, {} bytes read", source.given())?,
        Err(fault) => print!(rt; ": {fault}, {} bytes read", source.given())?,
    }
    for name in ["job.aux", "s.bst", "x.bib", "y.bib"] {
        if session.text(name.as_bytes()).is_some() {
            print!(rt; ", {name}")?;
        }
    }
    println!(rt;
        "\n{} bytes written\n{}",
        sink.bytes().len(),
        text(sink.bytes())
    )?;
    for count in source.notes() {
        println!(rt; "{count} handed on")?;
    }
    Ok(())
}

fn answer<S: Tested>(rt: &HostRuntime, input: &[u8], limits: Limits<'_>) -> Result<()> {
    let alloc = rt.alloc();
    let mut session = S::begun(alloc, b"job", 2)?;
    let handed_on = Cell::new(0);
    let mut source = Giver::new(alloc, input, limits, &handed_on);
    let mut sink = Taker::new(alloc, limits, &handed_on);
    let ended = session.answer(alloc, &mut source, &mut sink);
    tell(rt, ended, &session, &source, &sink)
}

fn show_all<T: Display>(rt: &HostRuntime, faults: &[T]) -> Result<()> {
    for fault in faults {
        println!(rt; "{fault}")?;
    }
    Ok(())
}

fn show_faults(rt: &HostRuntime) -> Result<()> {
    use ServeFault::{ReadFailed, Truncated, WriteFailed};
    show_all(rt, &[StreamFailed])?;
    show_all(rt, &[ReadFailed, WriteFailed, Truncated])?;
    show_all(
        rt,
        &[Refusal::BadName, Refusal::NoSuchFile, Refusal::RangeOutside],
    )?;
    show_all(
        rt,
        &[
            Refusal::FileTooLarge,
            Refusal::TooManyFiles,
            Refusal::OutOfMemory,
        ],
    )
}

fn push_letters(input: &mut Vec<u8>, count: usize) -> Result<(), AllocError> {
    for _ in 0..count {
        input.push(b'a')?;
    }
    Ok(())
}

fn places(alloc: Global, words: &str) -> Result<Vec<usize>, AllocError> {
    let mut places = Vec::new(alloc);
    for word in words.split(',') {
        places.push(number(word))?;
    }
    Ok(places)
}

fn title(word: &str) -> &'static str {
    match word {
        "cut" => "cut",
        "read_fails" => "read fails",
        "write_fails" => "write fails",
        _ => "whole input",
    }
}

/// An input, how many bytes are moved at most, and the places whose reads are watched.
#[derive(Drop)]
pub struct Loop {
    input: Vec<u8>,
    watched: Vec<usize>,
    most: usize,
}

impl Loop {
    /// Runs the loop over the input, which is cut short at this place, or whose read or write fails there.
    fn run(&self, rt: &HostRuntime, word: &str, place: usize) -> Result<()> {
        let input = self.input.as_slice();
        let mut limits = Limits {
            most: self.most,
            watched: self.watched.as_slice(),
            ..Limits::none()
        };
        let end = if word == "cut" { place } else { usize::MAX };
        match word {
            "read_fails" => limits.read_fails = place,
            "write_fails" => limits.write_fails = place,
            _ => {}
        }
        print!(rt; "{}", title(word))?;
        answer::<Session>(rt, input.get(..end).unwrap_or(input), limits)
    }

    /// The same for each place from one number up to another.
    fn run_all(&self, rt: &HostRuntime, word: &str, words: &str) -> Result<()> {
        let (first, end) = split(words);
        for place in number(first)..number(end) {
            self.run(rt, word, place)?;
        }
        Ok(())
    }
}

impl Case for Loop {
    fn begun(rt: &HostRuntime) -> Result<Self> {
        Ok(Loop {
            input: Vec::new(rt.alloc()),
            watched: Vec::new(rt.alloc()),
            most: usize::MAX,
        })
    }

    /// `text LEN` with LEN bytes, `letters LEN`: more input. `most LEN`: reads and writes move at most LEN bytes.
    /// `watch PLACE,PLACE,..`: notes what was flushed when a byte at these places is read. `serve`: answers the whole
    /// input. `cut FIRST END`, `read_fails FIRST END`, `write_fails FIRST END`: answers it for each n from FIRST to
    /// END - 1, cut short after n bytes, or with a read or write that fails there. `faults`: shows all faults.
    fn carry_out<'a>(
        &mut self,
        rt: &HostRuntime,
        line: &'a str,
        script: &mut Script<'a>,
    ) -> Result<()> {
        let (word, words) = split(line);
        match word {
            "text" => self.input.extend_from_slice(script.bytes(number(words)))?,
            "letters" => push_letters(&mut self.input, number(words))?,
            "most" => self.most = number(words),
            "watch" => self.watched = places(rt.alloc(), words)?,
            "serve" => self.run(rt, word, 0)?,
            "faults" => show_faults(rt)?,
            _ => self.run_all(rt, word, words)?,
        }
        Ok(())
    }
}
