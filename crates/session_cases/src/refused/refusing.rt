//! What a session with the greatest number of files shows, and which edits it refuses.

use crate::refused::attempt::Part;
use crate::tested::Tested;
use bibtex::{Edit, FILE_BYTES, FILE_LIMIT, Refusal, Session};
use bt_log::status;
use std::alloc::{AllocError, Global};

const DATABASE: &[u8] = b"@misc{a, title = {A}}\n@misc{b, title = {B}}\n";

/// A job of two entries.
const WRITES: &[Edit<'static>] = &[
    Edit::Write(
        b"job.aux",
        b"\\citation{a,b}\n\\bibdata{x}\n\\bibstyle{s}\n",
    ),
    Edit::Write(
        b"s.bst",
        b"ENTRY {title}{}{}\nFUNCTION {misc} {title write$ newline$}\nREAD\nITERATE {call.type$}\n",
    ),
    Edit::Write(b"x.bib", DATABASE),
];

/// How its log begins.
const FILES: &[u8] =
    b"The top-level auxiliary file: job.aux\nThe style file: s.bst\nDatabase file #1: x.bib\n";

/// Edits, and why they are refused.
const REFUSED: &[(Edit<'static>, Refusal)] = &[
    (Edit::Write(b"a b", b"text"), Refusal::BadName),
    (Edit::Write(b"", b"text"), Refusal::BadName),
    (Edit::Splice(b"a b", 0, 0, b"text"), Refusal::BadName),
    (Edit::Remove(b"a b"), Refusal::BadName),
    (Edit::Root(b"a b"), Refusal::BadName),
    (
        Edit::Root(b"aaaaaaaaaaaaaaaaaaaaaaaaaaaaaaaaaaaaaaaaaaaaaaaaaaaaaaaaaaaaa"),
        Refusal::BadName,
    ),
    (Edit::Splice(b"y.bib", 1, 0, b"text"), Refusal::NoSuchFile),
    (Edit::Remove(b"y.bib"), Refusal::NoSuchFile),
    (Edit::Splice(b"x.bib", 0, 45, b""), Refusal::RangeOutside),
    (Edit::Splice(b"x.bib", 2, 1, b"text"), Refusal::RangeOutside),
    (Edit::Write(b"y.bib", b"text"), Refusal::TooManyFiles),
];

fn shows_texts<S: Tested>(session: &S) -> bool {
    session.text(b"x.bib") == Some(DATABASE)
        && session.text(b"y.bib").is_none()
        && session.reason(Edit::Splice(b"x.bib", 1, 100_000, b""), 9) == Some(Refusal::RangeOutside)
}

/// Whether the session shows the job of two entries.
fn shows_two<S: Tested>(session: &S) -> bool {
    let shown = session.shown();
    shown.bbl == b"A\nB\n".as_slice()
        && shown.blg.starts_with(FILES)
        && shown.terse.is_empty()
        && shown.status == 0
        && shown.wanted.is_empty()
        && status(shown.messages) == 0
        && shows_texts(session)
}

fn is_refused<S: Tested>(session: &mut S, edit: Edit<'_>, reason: Refusal) -> bool {
    match session.make(edit) {
        Err(refusal) => refusal == reason && shows_two(session),
        Ok(_) => false,
    }
}

fn refuses_listed<S: Tested>(session: &mut S) -> bool {
    for (edit, reason) in REFUSED {
        if !is_refused(session, *edit, *reason) {
            return false;
        }
    }
    true
}

/// Whether edits are refused that bring more bytes than a file may have.
fn refuses_many<S: Tested>(session: &mut S, many: &[u8]) -> bool {
    let large = Refusal::FileTooLarge;
    is_refused(session, Edit::Write(b"a b", many), Refusal::BadName)
        && is_refused(session, Edit::Write(b"y.bib", many), large)
        && is_refused(session, Edit::Write(b"x.bib", many), large)
        && is_refused(session, Edit::Splice(b"x.bib", 0, 44, many), large)
}

fn refuses_root<S: Tested>(alloc: Global) -> bool {
    match S::begun(alloc, b"a b", 2) {
        Err(refusal) => refusal == Refusal::BadName,
        Ok(_) => false,
    }
}

fn write_one<S: Tested>(alloc: Global, session: &mut S, number: usize) -> Result<(), Refusal> {
    let name = format!(in alloc; "more-{number}")?;
    session.make(Edit::Write(name.as_bytes(), b"1"))?;
    Ok(())
}

/// Gives a session the job's files, and others up to the greatest number of files.
fn fill_up<S: Tested>(alloc: Global, session: &mut S) -> Result<(), Refusal> {
    for edit in WRITES {
        session.make(*edit)?;
    }
    for number in WRITES.len()..FILE_LIMIT {
        write_one(alloc, session, number)?;
    }
    Ok(())
}

fn letters(alloc: Global, count: usize) -> Result<Vec<u8>, AllocError> {
    vec![in alloc; b'a'; count]
}

/// Whether the session shows its job, refuses edits, and still shows the job then.
fn refuses_all<S: Tested>(alloc: Global, session: &mut S, many: &[u8]) -> bool {
    shows_two(session)
        && refuses_root::<S>(alloc)
        && refuses_listed(session)
        && refuses_many(session, many)
}

/// Fills a session up, and returns whether it then does what it must.
fn fills_up<S: Tested>(alloc: Global, session: &mut S, part: Part) -> Result<bool, Refusal> {
    let many = letters(alloc, FILE_BYTES + 1)?;
    fill_up(alloc, session)?;
    Ok(part == Part::Setup || refuses_all(alloc, session, &many))
}

fn is_full_refusing<S: Tested>(alloc: Global, part: Part) -> Result<bool, Refusal> {
    let mut session = S::begun(alloc, b"job", 2)?;
    fills_up(alloc, &mut session, part)
}

pub fn is_refusing(alloc: Global, part: Part) -> Result<bool, AllocError> {
    match is_full_refusing::<Session>(alloc, part) {
        Ok(is_refusing) => Ok(is_refusing),
        Err(_) => Err(AllocError),
    }
}
