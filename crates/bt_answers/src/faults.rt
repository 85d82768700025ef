//! Files that the run couldn't use, such as a missing database: shown where a LaTeX text names them. The run's own place for
//! such an error is a line of the `.aux` file, which nobody has open.

ghost use Rattle.std.specs.Prelude.{◌≡◌, ◌<◌, ◌*◌, ◌^◌, ◌++◌, ◌∷◌, [], length, map, IfOk};
ghost use Rattle.std.specs.List.{fold, list_any};
ghost use Rattle.serde_json.specs.View.{view};
ghost use Rattle.bt_log.specs.Wording.{said_words};
ghost use Rattle.bt_places.specs.Shapes.{range_of};
ghost use Rattle.bt_answers.specs.Faults.{is_error, file_said, faulty_file, is_some_text, is_fault, any_fault, linked_name, fault_words, fault_value, with_fault, with_faults_at, with_faults};

use crate::links::full_name;
use bt_documents::Document;
use bt_log::{Message, Rank, Said, add_said};
use bt_mentions::{Link, links, part};
use bt_places::{Paper, SHOWN_BYTES, is_tex, range_of, shown, with_value};
use bt_text::Bytes;
use serde_json::{Value, json};
use std::alloc::{AllocError, Global};

/// A link of a document, and the name of the file that it means.
#[derive(Clone, Copy)]
struct Named<'a> {
    document: &'a Document,
    link: Link,
    name: &'a [u8],
}

fn is_error(rank: Rank) -> bool
    ensures { result ≡ is_error rank }
{
    match rank {
        Rank::FileLine | Rank::Note | Rank::CallCount | Rank::Warning => false,
        Rank::Error | Rank::Fatal => true,
    }
}

fn file_said(said: &Said) -> &[u8]
    ensures { result.now ≡ file_said said.now }
{
    match said {
        Said::Words(_) => &[],
        Said::OfFile { file, .. } => file.as_slice(),
    }
}

/// The file that an error is about; empty for any other message.
pub fn faulty_file(message: &Message) -> &[u8]
    ensures { result.now ≡ faulty_file message.now }
{
    if is_error(message.rank) {
        file_said(&message.said)
    } else {
        &[]
    }
}

/// Whether a text has a byte.
pub fn is_some_text(text: &[u8]) -> bool
    ensures { result ≡ is_some_text text.now }
{
    match text {
        [] => false,
        [_, ..] => true,
    }
}

/// Whether a message is an error about a file.
pub fn is_fault(message: &Message) -> bool
    ensures { result ≡ is_fault message.now }
{
    is_some_text(faulty_file(message))
}

/// Whether some messages are errors about files.
pub fn any_fault(messages: &[Message]) -> bool
    ensures { result ≡ any_fault messages.now }
{
    messages.iter().any(is_fault)
}

/// The name of the file that a link of a text means.
pub fn linked_name(alloc: Global, text: &[u8], link: Link) -> Result<Bytes, AllocError>
    ensures { IfOk result (λ name. name ≡ linked_name text.now link) }
{
    full_name(alloc, &[], link.kind, part(text, link.from, link.to))
}

/// The most files of a paper: a session takes no more.
const MOST_FILES: usize = 64;

fn said_words(alloc: Global, said: &Said) -> Result<Bytes, AllocError>
    ensures { IfOk result (λ words. words ≡ said_words said.now) }
{
    let mut words = Bytes::new(alloc);
    add_said(&mut words, said)?;
    Ok(words)
}

/// What an error about a file says, in a paper with this many files. With 64, the file may well be there: a paper can have no more.
pub fn fault_words(alloc: Global, count: usize, what: &Said) -> Result<Bytes, AllocError>
    ensures { IfOk result (λ words. words ≡ fault_words count what.now) }
{
    let mut words = said_words(alloc, what)?;
    if count >= MOST_FILES {
        words.append(b". This paper has 64 files, and bibtex-lsp can open no more")?;
    }
    Ok(words)
}

fn fault_value(alloc: Global, range: Value, words: &[u8]) -> Result<Value, AllocError>
    ensures { IfOk result (λ v. view v ≡ fault_value (view range) words.now) }
{
    let words = shown(alloc, words)?;
    json!(in alloc; {"range": range, "severity": 1, "source": "bibtex", "message": words})
}

fn with_fault_at(
    alloc: Global,
    document: &Document,
    link: Link,
    list: Vec<Value>,
    words: &[u8],
) -> Result<Vec<Value>, AllocError>
    requires { 2 * length document.now.text < 2 ^ 64 }
    ensures { IfOk result (λ all. map view all.items ≡ map view list.items ++
        fault_value (range_of document.now.counting document.now.text link.from link.to) words.now ∷ []) }
{
    let counting = document.counting;
    let range = range_of(alloc, counting, &document.text, link.from, link.to)?;
    let value = fault_value(alloc, range, words)?;
    let all = with_value(list, value)?;
    Ok(all)
}

fn with_fault(
    alloc: Global,
    named: Named,
    count: usize,
    list: Vec<Value>,
    message: &Message,
) -> Result<Vec<Value>, AllocError>
    requires { 2 * length named.document.now.text < 2 ^ 64 }
    ensures { IfOk result (λ all. map view all.items ≡ with_fault count named.entry.document.now named.entry.link
        named.entry.name.now (map view list.items) message.now) }
{
    if faulty_file(message) != named.name {
        return Ok(list);
    }
    let words = fault_words(alloc, count, &message.said)?;
    let all = with_fault_at(alloc, named.document, named.link, list, words.as_slice())?;
    Ok(all)
}

fn with_named_faults(
    alloc: Global,
    messages: &[Message],
    count: usize,
    named: Named,
    list: Vec<Value>,
) -> Result<Vec<Value>, AllocError>
    requires { 2 * length named.document.now.text < 2 ^ 64 }
    ensures { IfOk result (λ all. map view all.items ≡
        fold (with_fault count named.entry.document.now named.entry.link named.entry.name.now) (map view list.items) messages.now) }
{
    let mut all = list;
    'messages: for message in messages {
        all = with_fault(alloc, named, count, all, message)?;
    }
    Ok(all)
}

fn with_faults_at<P: Paper>(
    alloc: Global,
    paper: &P,
    document: &Document,
    list: Vec<Value>,
    link: Link,
) -> Result<Vec<Value>, AllocError>
    requires { 2 * length document.now.text < 2 ^ 64 }
    ensures { IfOk result (λ all. map view all.items ≡
        with_faults_at (P.shown paper.now) document.now (map view list.items) link) }
{
    let name = linked_name(alloc, document.text.as_slice(), link)?;
    let named = Named {
        document,
        link,
        name: name.as_slice(),
    };
    let all = with_named_faults(alloc, paper.messages(), paper.file_count(), named, list)?;
    Ok(all)
}

fn with_link_faults<P: Paper>(
    alloc: Global,
    paper: &P,
    document: &Document,
    list: Vec<Value>,
    found: &[Link],
) -> Result<Vec<Value>, AllocError>
    requires { 2 * length document.now.text < 2 ^ 64 }
    ensures { IfOk result (λ all. map view all.items ≡
        fold (with_faults_at (P.shown paper.now) document.now) (map view list.items) found.now) }
{
    let mut all = list;
    'found: for link in found {
        all = with_faults_at(alloc, paper, document, all, *link)?;
    }
    Ok(all)
}

/// Adds the errors about files at the names of these files in a LaTeX text.
pub fn with_faults<P: Paper>(
    alloc: Global,
    paper: &P,
    document: &Document,
    list: Vec<Value>,
) -> Result<Vec<Value>, AllocError>
    ensures { IfOk result (λ all. map view all.items ≡ with_faults (P.shown paper.now) document.now (map view list.items)) }
{
    let text = document.text.as_slice();
    let is_faulty = any_fault(paper.messages());
    if !is_tex(document.name.as_slice()) || !is_faulty || text.len() > SHOWN_BYTES {
        return Ok(list);
    }
    let found = links(alloc, text)?;
    let all = with_link_faults(alloc, paper, document, list, found.as_slice())?;
    Ok(all)
}
