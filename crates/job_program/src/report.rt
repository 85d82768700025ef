//! What the terminal shows.

use crate::options::Wrong;
use bt_log::{FileNote, Message, Rank, Said, log_bytes, terse_bytes};
use bt_run::Answers;
use bt_streams::{WriterSink, say};
use bt_text::{Bytes, Sequence};
use std::alloc::{AllocError, Global};
use std::io;

/// The help.
pub const HELP: &str = "\
usage: bibtex [-terse] [-min-crossrefs N] [-quiet] [-no-fallback] JOB
       bibtex --resident JOB

Writes the bibliography of a LaTeX document. It reads JOB.aux, looks up the cited entries in
the databases, formats them in the document's style, and writes JOB.bbl. The log goes to
JOB.blg. JOB is the document's name, with or without .aux or .tex.

  -terse             print only messages, not the names of the files
  -min-crossrefs N   include an uncited entry once N entries cross-reference it (default 2)
  -quiet             print no hints
  -no-fallback       never let another bibtex do the job
  -version           print the version, and the path of another bibtex if there is one
  -help              print this
  --resident         answer an editor's commands; read and write no file

Options take one dash or two. Styles and databases are looked for in the current folder and
then by kpsewhich, but only by kpsewhich if BIBINPUTS or BSTINPUTS is set.

Exit status: 0 for a clean run or warnings, 1 if the job can't be run or memory ran out, 2 for
errors, 3 for a fatal error or a file that can't be written.";

/// Prints bytes to standard error. A failure is ignored.
pub fn complain(rt: &HostRuntime, pieces: &[&[u8]]) {
    let mut err = WriterSink::new(rt.stderr());
    let _ = say(&mut err, pieces);
}

/// Prints a line that says what is wrong with a command line. A failure is ignored.
pub fn refuse(rt: &HostRuntime, wrong: Wrong<'_>) {
    let _ = match wrong {
        Wrong::NoJob => eprintln!(rt;
            "bibtex: name a document, as in bibtex paper; bibtex -help shows more"
        ),
        Wrong::TwoJobs(first, second) => {
            eprintln!(rt;
                "bibtex: one document at a time, not {first} and {second} (quote a name that has spaces)"
            )
        }
        Wrong::UnknownOption(word) => eprintln!(rt;
            "bibtex: there is no option {word}; the options are -terse, -min-crossrefs N, -quiet, -no-fallback, -version, -help and --resident"
        ),
        Wrong::NoNumber(None) => {
            eprintln!(rt; "bibtex: -min-crossrefs needs a number, as in -min-crossrefs=2")
        }
        Wrong::NoNumber(Some(word)) => eprintln!(rt;
            "bibtex: -min-crossrefs needs a number from 0 to 65535, and {word} isn't one"
        ),
    };
}

/// Whether the terminal shows a message: all but the counts of calls and the lines of nested files, which only the log
/// has.
fn is_shown(message: &Message) -> bool {
    let is_nested = matches!(
        &message.said,
        Said::OfFile {
            note: FileNote::NestedAux(_),
            ..
        }
    );
    message.rank != Rank::CallCount && !(message.rank == Rank::FileLine && is_nested)
}

fn shown_of(alloc: Global, messages: &[Message]) -> Result<Sequence<Message>, AllocError> {
    let mut shown = Sequence::new(alloc);
    'messages: for message in messages {
        if is_shown(message) {
            shown.push(message.share()?)?;
        }
    }
    Ok(shown)
}

/// What the terminal shows of a run. The only error is out of memory.
pub fn printed(alloc: Global, answers: &Answers, terse: bool) -> Result<Bytes, AllocError> {
    let messages = answers.messages.as_slice();
    if terse {
        return terse_bytes(alloc, messages);
    }
    let shown = shown_of(alloc, messages)?;
    log_bytes(alloc, shown.as_slice())
}

/// Prints bytes to standard output. A failure is ignored.
pub fn print(rt: &HostRuntime, text: &[u8]) {
    let mut out = WriterSink::new(io::writer(rt));
    let _ = say(&mut out, &[text]);
}
