//! What an editor is told of errors about files for which no open document has a place: that there is no `.aux` file, or that
//! a database is missing while neither the `.aux` file nor the text that names it is open.

ghost use Rattle.std.specs.Prelude.{◌≡◌, ◌++◌, false, map, codes, IfOk, OnOk};
ghost use Rattle.std.specs.List.{fold};
ghost use Rattle.serde_json.specs.View.{view};
ghost use Rattle.bt_answers.specs.Faults.{fault_words};
ghost use Rattle.bt_lsp.specs.Complaints.{or_means, names_file, file_of, is_shown_in, or_shown_in, is_homeless, with_complaint, jobless_words, complaints, complaint, with_complaints};

use crate::news::{run_name, warning};
use bt_answers::{fault_words, faulty_file, is_fault, is_some_text, linked_name};
use bt_documents::Document;
use bt_log::{Message, Place};
use bt_mentions::{Link, links};
use bt_places::{Paper, is_tex, shown, with_value};
use bt_text::Bytes;
use serde_json::Value;
use std::alloc::{AllocError, Global};

/// Whether a link means a file, or it is known already that one does.
fn or_means(
    alloc: Global,
    text: &[u8],
    file: &[u8],
    known: bool,
    link: Link,
) -> Result<bool, AllocError>
    ensures { IfOk result (λ b. b ≡ or_means text.now file.now known link) }
{
    if known {
        return Ok(true);
    }
    let name = linked_name(alloc, text, link)?;
    Ok(name.as_slice() == file)
}

fn any_means(alloc: Global, text: &[u8], file: &[u8], found: &[Link]) -> Result<bool, AllocError>
    ensures { IfOk result (λ b. b ≡ fold (or_means text.now file.now) false found.now) }
{
    let mut known = false;
    'found: for link in found {
        known = or_means(alloc, text, file, known, *link)?;
    }
    Ok(known)
}

fn names_file(alloc: Global, file: &[u8], document: &Document) -> Result<bool, AllocError>
    ensures { IfOk result (λ b. b ≡ names_file file.now document.now) }
{
    if !is_tex(document.name.as_slice()) {
        return Ok(false);
    }
    let text = document.text.as_slice();
    let found = links(alloc, text)?;
    any_means(alloc, text, file, found.as_slice())
}

/// The file of a place; empty if there is none.
fn file_of(place: &Option<Place>) -> &[u8]
    ensures { result.now ≡ file_of place.now }
{
    match place {
        Some(Place::Line { file, .. }) => file.as_slice(),
        Some(Place::WholeFile { file }) => file.as_slice(),
        Some(Place::Step { style, .. }) => style.as_slice(),
        Some(Place::DatabaseLine { .. }) | None => &[],
    }
}

fn is_shown_in<P: Paper>(
    alloc: Global,
    paper: &P,
    message: &Message,
    document: &Document,
) -> Result<bool, AllocError>
    ensures { IfOk result (λ b. b ≡ is_shown_in (P.shown paper.now) message.now document.now) }
{
    if document.in_step && file_of(&message.place) == run_name(paper, document) {
        return Ok(true);
    }
    names_file(alloc, faulty_file(message), document)
}

fn or_shown_in<P: Paper>(
    alloc: Global,
    paper: &P,
    message: &Message,
    known: bool,
    document: &Document,
) -> Result<bool, AllocError>
    ensures { IfOk result (λ b. b ≡ or_shown_in (P.shown paper.now) message.now known document.now) }
{
    if known {
        return Ok(true);
    }
    is_shown_in(alloc, paper, message, document)
}

fn is_shown<P: Paper>(
    alloc: Global,
    paper: &P,
    documents: &[Document],
    message: &Message,
) -> Result<bool, AllocError>
    ensures { IfOk result (λ b. b ≡ fold (or_shown_in (P.shown paper.now) message.now) false documents.now) }
{
    let mut known = false;
    'documents: for document in documents {
        known = or_shown_in(alloc, paper, message, known, document)?;
    }
    Ok(known)
}

/// Whether a message is an error about a file that no document shows.
fn is_homeless<P: Paper>(
    alloc: Global,
    paper: &P,
    documents: &[Document],
    message: &Message,
) -> Result<bool, AllocError>
    ensures { IfOk result (λ b. b ≡ is_homeless (P.shown paper.now) documents.now message.now) }
{
    if !is_fault(message) {
        return Ok(false);
    }
    let shown = is_shown(alloc, paper, documents, message)?;
    Ok(!shown)
}

fn add_sentence(
    alloc: Global,
    count: usize,
    words: &mut Bytes,
    message: &Message,
) -> Result<(), AllocError>
    ensures { OnOk result (words.new ≡ words.old ++ (codes " " ++ fault_words count message.now.said ++ codes ".")) }
{
    let said = fault_words(alloc, count, &message.said)?;
    words.append_all(&[b" ", said.as_slice(), b"."])
}

fn add_complaint<P: Paper>(
    alloc: Global,
    paper: &P,
    documents: &[Document],
    words: &mut Bytes,
    message: &Message,
) -> Result<(), AllocError>
    ensures { OnOk result (words.new ≡ with_complaint (P.shown paper.now) documents.now words.old message.now) }
{
    if !is_homeless(alloc, paper, documents, message)? {
        return Ok(());
    }
    add_sentence(alloc, paper.file_count(), words, message)
}

fn add_complaints<P: Paper>(
    alloc: Global,
    paper: &P,
    documents: &[Document],
    words: &mut Bytes,
    messages: &[Message],
) -> Result<(), AllocError>
    ensures { OnOk result (words.new ≡ fold (with_complaint (P.shown paper.now) documents.now) words.old messages.now) }
{
    'messages: for message in messages {
        add_complaint(alloc, paper, documents, words, message)?;
    }
    Ok(())
}

fn jobless_words(alloc: Global) -> Result<Bytes, AllocError>
    ensures { IfOk result (λ words. words ≡ jobless_words) }
{
    Bytes::copied(
        alloc,
        b" I found no .aux file that names a database. Run latex once, or choose the paper.",
    )
}

/// The errors about files for which no document has a place, in words; empty if there are none. Before there is a job, the
/// complaint is that there is none.
pub fn complaints<P: Paper>(
    alloc: Global,
    paper: &P,
    documents: &[Document],
) -> Result<Bytes, AllocError>
    ensures { IfOk result (λ words. words ≡ complaints (P.shown paper.now) documents.now) }
{
    if !is_some_text(paper.log()) {
        return jobless_words(alloc);
    }
    let mut words = Bytes::new(alloc);
    add_complaints(alloc, paper, documents, &mut words, paper.messages())?;
    Ok(words)
}

fn complaint(alloc: Global, words: &[u8]) -> Result<Value, AllocError>
    ensures { IfOk result (λ v. view v ≡ complaint words.now) }
{
    let line = Bytes::of(alloc, &[b"bibtex-lsp:", words])?;
    let words = shown(alloc, line.as_slice())?;
    warning(alloc, words.as_str())
}

/// Adds the complaints, if there are any and they weren't said before.
pub fn with_complaints(
    alloc: Global,
    said: &[u8],
    words: &[u8],
    list: Vec<Value>,
) -> Result<Vec<Value>, AllocError>
    ensures { IfOk result (λ all. map view all.items ≡ with_complaints said.now words.now (map view list.items)) }
{
    if !is_some_text(words) || words == said {
        return Ok(list);
    }
    let note = complaint(alloc, words)?;
    let all = with_value(list, note)?;
    Ok(all)
}
