//! Cases of `.aux` texts: the lines that matter, and what a root asks for, with nested files in their places.

use crate::Done;
use crate::answer::{Answer, Spelled, put};
use crate::logs::push_log;
use crate::words::Words;
use bt_bib::{AuxFault, AuxItem, Command, read_aux};
use bt_job::{AuxTexts, File, read_citations};
use bt_text::{Bytes, Shared};
use std::alloc::AllocError;

fn command_name(command: Command) -> &'static str {
    match command {
        Command::Citation => " Citation [",
        Command::Database => " Database [",
        Command::Style => " Style [",
        Command::Nested => " Nested [",
    }
}

fn fault_name(fault: Option<AuxFault>) -> &'static str {
    match fault {
        None => "] .",
        Some(AuxFault::NoBrace) => "] NoBrace",
        Some(AuxFault::WhiteSpace) => "] WhiteSpace",
        Some(AuxFault::StuffAfter) => "] StuffAfter",
    }
}

impl Spelled for AuxItem {
    fn spell(&self, out: &mut Answer) {
        put!(out; self.line);
        let parts = self.parts.as_slice();
        out.list(
            command_name(self.command),
            parts,
            ",",
            fault_name(self.fault),
        );
    }
}

fn push_lines(words: Words<'_>, out: &mut Answer) -> Done {
    let items = read_aux(words.alloc, &words.text(1)?)?;
    let begin = if items.len() == 0 { "." } else { "" };
    out.list(begin, items.as_slice(), " ; ", "");
    Ok(())
}

fn files(words: Words<'_>) -> Result<Vec<File>, AllocError> {
    let mut files = Vec::new(words.alloc);
    for word in words.after(2) {
        let parts = words.parts(word);
        let name = Shared::<Bytes>::copied(words.alloc, parts.word(0).as_bytes())?;
        let text = parts.shared(1)?;
        files.push(File { name, text })?;
    }
    Ok(files)
}

fn push_asked(words: Words<'_>, out: &mut Answer, files: &[File]) -> Done {
    let root = words.word(1).as_bytes();
    let asked = read_citations(words.alloc, files, root, &mut AuxTexts::new(words.alloc))?;
    put!(out; asked.keys.as_slice().len(), " keys, ", asked.databases.len(), " databases, ");
    put!(out; asked.wanted.len(), " wanted, status ");
    push_log(words, out, asked.log.as_slice())
}

pub fn push_answer(words: Words<'_>, out: &mut Answer) -> Done {
    match words.word(0) {
        "read_aux" => push_lines(words, out),
        _ => push_asked(words, out, &files(words)?),
    }
}
