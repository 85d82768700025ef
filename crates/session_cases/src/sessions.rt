//! Sessions that are edited step by step, and what they show: names that no command can spell, wanted names, the terse
//! log, messages, reasons to refuse an edit, and that a refused edit changes nothing.

use crate::inputs::agree;
use crate::script::{Case, Script, number, split, text};
use crate::tested::{Shown, Tested};
use anyhow::Result;
use bibtex::{Bytes, Edit, Message, Place, Refusal, Report, Said};
use std::alloc::{AllocError, Global};

/// The names whose texts are compared.
const NAMES: [&str; 8] = [
    "job.aux", "two.aux", "n.aux", "s.bst", "t.bst", "x.bib", "y.bib", "a b",
];

fn push_answers<S: Tested>(session: &S, seen: &mut Bytes) -> Result<(), AllocError> {
    let shown = session.shown();
    seen.append_all(&[shown.bbl, shown.blg, shown.terse, &[shown.status]])?;
    for name in shown.wanted {
        seen.append_all(&[name.as_slice(), b"\n"])?;
    }
    Ok(())
}

fn push_texts<S: Tested>(session: &S, seen: &mut Bytes) -> Result<(), AllocError> {
    for name in NAMES {
        if let Some(text) = session.text(name.as_bytes()) {
            seen.append_all(&[name.as_bytes(), b"\n", text])?;
        }
    }
    Ok(())
}

fn seen<S: Tested>(alloc: Global, session: &S) -> Result<Bytes, AllocError> {
    let words = format!(in alloc; "{:?}", session.shown().messages)?;
    let mut seen = Bytes::from_vec(words.into_bytes());
    push_answers(session, &mut seen)?;
    push_texts(session, &mut seen)?;
    Ok(seen)
}

fn shows<S: Tested>(alloc: Global, session: &S, wanted: &Bytes) -> Result<bool, AllocError> {
    Ok(seen(alloc, session)?.as_slice() == wanted.as_slice())
}

/// The edit of a line: `write LEN NAME` or `splice START END LEN NAME` with LEN bytes, `remove NAME`, `root NAME`, or
/// `min N`. A name may have spaces in it.
fn edit_of<'a>(line: &'a str, script: &mut Script<'a>) -> Edit<'a> {
    let (word, words) = split(line);
    let (first, rest) = split(words);
    match word {
        "write" => Edit::Write(rest.as_bytes(), script.bytes(number(first))),
        "splice" => {
            let (end, rest) = split(rest);
            let (count, name) = split(rest);
            let bytes = script.bytes(number(count));
            Edit::Splice(name.as_bytes(), number(first), number(end), bytes)
        }
        "remove" => Edit::Remove(words.as_bytes()),
        "root" => Edit::Root(words.as_bytes()),
        _ => Edit::MinCrossrefs(words.parse::<u32>().unwrap_or(2)),
    }
}

fn tell_answer(rt: &HostRuntime, answer: Result<Report, Refusal>) -> Result<()> {
    match answer {
        Ok(report) => {
            let (ran, reused, ticks) = (report.ran, report.reused, report.ticks);
            println!(rt; "ok {} {ran} {reused} {ticks}", report.status)?;
        }
        Err(refusal) => println!(rt; "refused {refusal}")?,
    }
    Ok(())
}

/// Makes an edit. If memory ran out and the session is as before, standard error says so, and the edit is made again.
fn made<S: Tested>(
    rt: &HostRuntime,
    session: &mut S,
    edit: Edit<'_>,
    before: &Bytes,
) -> Result<Result<Report, Refusal>> {
    let answer = session.make(edit);
    if !matches!(answer, Err(Refusal::OutOfMemory)) || !shows(rt.alloc(), session, before)? {
        return Ok(answer);
    }
    eprintln!(rt; "out of memory: once more")?;
    Ok(session.make(edit))
}

/// Prints, after a refusal, whether the session is as before.
fn tell_change<S: Tested>(rt: &HostRuntime, session: &S, before: &Bytes) -> Result<()> {
    if shows(rt.alloc(), session, before)? {
        println!(rt; "all is as before")?;
    } else {
        println!(rt; "something has changed")?;
    }
    Ok(())
}

/// Makes an edit, prints the answer, and returns the report.
fn tell_edit<S: Tested>(
    rt: &HostRuntime,
    session: &mut S,
    edit: Edit<'_>,
) -> Result<Option<Report>> {
    let before = seen(rt.alloc(), session)?;
    let answer = made(rt, session, edit, &before)?;
    tell_answer(rt, answer)?;
    if answer.is_err() {
        tell_change(rt, session, &before)?;
    }
    Ok(answer.ok())
}

/// Gives a new session the present texts of another one, and returns the last report.
fn give_texts<S: Tested>(anew: &mut S, session: &S) -> Result<Option<Report>, Refusal> {
    let mut last = None;
    for name in NAMES {
        if let Some(text) = session.text(name.as_bytes()) {
            last = Some(anew.make(Edit::Write(name.as_bytes(), text))?);
        }
    }
    Ok(last)
}

/// Whether two reports, if there are both, count equally many steps.
fn are_as_long(one: Option<Report>, other: Option<Report>) -> bool {
    match (one, other) {
        (Some(one), Some(other)) => {
            one.ran.saturating_add(one.reused) == other.ran.saturating_add(other.reused)
        }
        _ => true,
    }
}

fn shows_same<S: Tested>(alloc: Global, session: &S, anew: &S) -> Result<bool, AllocError> {
    shows(alloc, anew, &seen(alloc, session)?)
}

/// Prints whether a new session with the present texts shows the same, and its last report counts as many steps.
fn tell_difference<S: Tested>(
    rt: &HostRuntime,
    session: &S,
    last: Option<Report>,
    anew: &mut S,
) -> Result<()> {
    let report = give_texts(anew, session)?;
    if are_as_long(last, report) && shows_same(rt.alloc(), session, anew)? {
        println!(rt; "as anew")?;
    } else {
        println!(rt; "not as anew")?;
    }
    Ok(())
}

fn tell_anew<S: Tested>(
    rt: &HostRuntime,
    session: &S,
    last: Option<Report>,
    words: &str,
) -> Result<()> {
    let (min, root) = split(words);
    let min = min.parse::<u32>().unwrap_or(2);
    let mut anew = S::begun(rt.alloc(), root.as_bytes(), min)?;
    tell_difference(rt, session, last, &mut anew)
}

fn tell_letters<S: Tested>(
    rt: &HostRuntime,
    session: &mut S,
    words: &str,
) -> Result<Option<Report>> {
    let (count, name) = split(words);
    let letters = vec![in rt.alloc(); b'a'; number(count)]?;
    let edit = Edit::Write(name.as_bytes(), letters.as_slice());
    tell_edit(rt, session, edit)
}

fn has_run_out(answers: &[Result<Report, Refusal>]) -> bool {
    answers
        .iter()
        .any(|each| matches!(each, Err(Refusal::OutOfMemory)))
}

/// Makes edits as one list. Returns nothing if memory ran out.
fn made_once<S: Tested>(
    alloc: Global,
    session: &mut S,
    edits: &[Edit<'_>],
) -> Option<Vec<Result<Report, Refusal>>> {
    let answers = session.make_all(alloc, edits).ok()?;
    if has_run_out(&answers) {
        return None;
    }
    Some(answers)
}

/// Reports that memory ran out in a list of edits, and whether something has changed.
fn tell_run_out<S: Tested>(rt: &HostRuntime, session: &S, before: &Bytes) -> Result<()> {
    if !shows(rt.alloc(), session, before)? {
        println!(rt; "something has changed")?;
    }
    eprintln!(rt; "out of memory: once more")?;
    Ok(())
}

fn tell_answers(rt: &HostRuntime, answers: &[Result<Report, Refusal>]) -> Result<()> {
    for answer in answers {
        tell_answer(rt, *answer)?;
    }
    Ok(())
}

/// Makes edits as one list; again if memory ran out.
fn tell_list<S: Tested>(rt: &HostRuntime, session: &mut S, edits: &[Edit<'_>]) -> Result<()> {
    let before = seen(rt.alloc(), session)?;
    if let Some(answers) = made_once(rt.alloc(), session, edits) {
        return tell_answers(rt, &answers);
    }
    tell_run_out(rt, session, &before)?;
    tell_answers(rt, &session.make_all(rt.alloc(), edits)?)
}

fn edits_of<'a>(
    alloc: Global,
    count: usize,
    script: &mut Script<'a>,
) -> Result<Vec<Edit<'a>>, AllocError> {
    let mut edits = Vec::new(alloc);
    for _ in 0..count {
        if let Some(line) = script.line() {
            edits.push(edit_of(line, script))?;
        }
    }
    Ok(edits)
}

/// Makes the edits of the next lines as one list.
fn tell_list_of<'a, S: Tested>(
    rt: &HostRuntime,
    session: &mut S,
    count: usize,
    script: &mut Script<'a>,
) -> Result<()> {
    let edits = edits_of(rt.alloc(), count, script)?;
    tell_list(rt, session, &edits)
}

/// Prints the first reason to refuse an edit that brings this number of bytes.
fn tell_reason<'a, S: Tested>(
    rt: &HostRuntime,
    session: &S,
    words: &'a str,
    script: &mut Script<'a>,
) -> Result<()> {
    let (size, line) = split(words);
    let reason = session.reason(edit_of(line, script), number(size));
    println!(rt; "refusal: {reason:?}")?;
    Ok(())
}

fn tell_wanted(rt: &HostRuntime, names: &[Bytes]) -> Result<()> {
    print!(rt; "wanted:")?;
    for name in names {
        print!(rt; " {}", text(name.as_slice()))?;
    }
    println!(rt; "")?;
    Ok(())
}

/// How many messages there are, and the last one: its rank, its words or the file that it names, and its place.
fn tell_last(rt: &HostRuntime, messages: &[Message]) -> Result<()> {
    println!(rt; "messages: {}", messages.len())?;
    let Some(message) = messages.last() else {
        return Ok(());
    };
    let said = match &message.said {
        Said::Words(words) => words,
        Said::OfFile { file, .. } => file,
    };
    print!(rt; "{:?} {}", message.rank, text(said.as_slice()))?;
    if let Some(Place::Line { file, line, .. }) = &message.place {
        print!(rt; " {}:{line}", text(file.as_slice()))?;
    }
    println!(rt; "")?;
    Ok(())
}

fn tell_logs(rt: &HostRuntime, shown: Shown<'_>) -> Result<()> {
    println!(rt; "status {}", shown.status)?;
    print!(rt; "bibliography:\n{}", text(shown.bbl))?;
    print!(rt; "log:\n{}", text(shown.blg))?;
    print!(rt; "terse log:\n{}", text(shown.terse))?;
    Ok(())
}

fn tell_agreement(rt: &HostRuntime, words: &str) -> Result<()> {
    let (one, other) = split(words);
    if agree(rt.alloc(), one, other)? {
        println!(rt; "they agree")?;
    } else {
        println!(rt; "they differ")?;
    }
    Ok(())
}

fn show<S: Tested>(rt: &HostRuntime, session: &S, word: &str, words: &str) -> Result<()> {
    let shown = session.shown();
    match word {
        "wanted" => tell_wanted(rt, shown.wanted)?,
        "show" => tell_logs(rt, shown)?,
        "bibliography" => print!(rt; "bibliography:\n{}", text(shown.bbl))?,
        "message" => tell_last(rt, shown.messages)?,
        "messages" => println!(rt; "{:?}", shown.messages)?,
        "agrees" => tell_agreement(rt, words)?,
        _ => {
            let text = text(session.text(words.as_bytes()).unwrap_or(b"none"));
            println!(rt; "{words}: {text}")?;
        }
    }
    Ok(())
}

/// A session, and the report of its last edit, unless that was refused.
#[derive(Drop)]
pub struct Edited<S: Tested> {
    session: S,
    last: Option<Report>,
}

impl<S: Tested> Case for Edited<S> {
    fn begun(rt: &HostRuntime) -> Result<Self> {
        Ok(Edited {
            session: S::begun(rt.alloc(), b"job", 2)?,
            last: None,
        })
    }

    /// An edit; `letters LEN NAME`: a write of LEN letters; `list N`: the edits of the next N lines as one list;
    /// `refusal SIZE EDIT`: the first reason to refuse an edit that brings SIZE bytes; `anew MIN ROOT`: whether a new
    /// session shows the same; `wanted`: the wanted names; `text NAME`; `show`: the status, the bibliography, and both
    /// logs; `bibliography`; `message`: the last one; `messages`: all, with all their parts;
    /// `agrees KEY,TITLE,NOTE KEY,TITLE,NOTE`: whether the steps of two such entries agree.
    fn carry_out<'a>(
        &mut self,
        rt: &HostRuntime,
        line: &'a str,
        script: &mut Script<'a>,
    ) -> Result<()> {
        let (word, words) = split(line);
        match word {
            "write" | "splice" | "remove" | "root" | "min" => {
                self.last = tell_edit(rt, &mut self.session, edit_of(line, script))?;
            }
            "letters" => self.last = tell_letters(rt, &mut self.session, words)?,
            "list" => {
                tell_list_of(rt, &mut self.session, number(words), script)?;
                self.last = None;
            }
            "refusal" => tell_reason(rt, &self.session, words, script)?,
            "anew" => tell_anew(rt, &self.session, self.last, words)?,
            _ => show(rt, &self.session, word, words)?,
        }
        Ok(())
    }
}
