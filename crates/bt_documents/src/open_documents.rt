//! The open documents, and the files that follow them.

ghost use Rattle.std.specs.Prelude.{◌≡◌, ◌<◌, IfOk, OnErr, true, false, ℕ, List, Option, Some, length, slice_get, slice_set, option_map, IsTrue};
ghost use Rattle.bt_documents.specs.declared.document.Document.{Document};
ghost use Rattle.bt_documents.specs.Documents.{with_document, after_changes, opened, closed, AreGiven, any_behind, Follows};
ghost use Rattle.bt_documents.specs.Written.{is_waiting};

use crate::changes::{Change, all_edited};
use crate::document::{Document, index_of};
use crate::files::{Files, Written};
use bt_positions::{Counting, IndexedText};
use bt_text::{Bytes, Sequence};
use std::alloc::{AllocError, Global};
use std::mem;

/// The document after changes, before the files have taken them.
fn after_changes(
    alloc: Global,
    document: &Document,
    name: &[u8],
    version: i64,
    changes: &[Change],
) -> Result<Document, AllocError>
    ensures { IfOk result (λ d. d ≡ after_changes name.now version changes.now document.now) }
{
    let text = all_edited(alloc, document.counting, &document.text, changes)?;
    Ok(Document {
        name: Bytes::copied(alloc, name)?,
        counting: document.counting,
        version,
        text,
        in_step: false,
    })
}

/// Puts a document in the place of the open one of its name, or last.
fn put(documents: &mut Sequence<Document>, document: Document) -> Result<(), AllocError>
    ensures documents { IfOk result (λ _. documents.new ≡ opened document documents.old) }
    ensures err { OnErr result (documents.new ≡ documents.old) }
{
    match index_of(documents.as_slice(), document.name.as_slice()) {
        Some(place) => {
            documents.set(place, document);
            Ok(())
        }
        None => {
            documents.push(document)?;
            Ok(())
        }
    }
}

/// Notes that the files took the text of the document at a place.
fn mark(alloc: Global, documents: &mut Sequence<Document>, place: usize)
    requires { place < length documents.old }
    ensures { (d : Document) → slice_get documents.old place ≡ Some d →
        documents.new ≡ slice_set documents.old place (record d { in_step = true }) }
{
    let mut marked = mem::replace(documents, Sequence::new(alloc)).into_vec();
    marked[place].in_step = true;
    *documents = Sequence::from_vec(marked);
}

/// Opens a document, which replaces an open one of its name. The files get its text from `give_again`. After an error nothing
/// has changed.
pub fn open(
    documents: &mut Sequence<Document>,
    name: Bytes,
    counting: Counting,
    version: i64,
    text: IndexedText,
) -> Result<(), AllocError>
    ensures documents { IfOk result (λ _. documents.new ≡ opened (record {
      name = name;
      counting = counting;
      version = version;
      text = text;
      in_step = false;
    }) documents.old) }
    ensures follows { (text : List ℕ → Option (List ℕ)) → Follows text documents.old → Follows text documents.new }
    ensures err { OnErr result (documents.new ≡ documents.old) }
{
    let document = Document {
        name,
        counting,
        version,
        text,
        in_step: false,
    };
    put(documents, document)?;
    Ok(())
}

/// Closes the document of a name, if one is open. The files keep its text.
pub fn close(alloc: Global, documents: &mut Sequence<Document>, name: &[u8])
    ensures documents { documents.new ≡ closed name.now documents.old }
    ensures follows { (text : List ℕ → Option (List ℕ)) → Follows text documents.old → Follows text documents.new }
{
    if let Some(place) = index_of(documents.as_slice(), name) {
        let mut kept = mem::replace(documents, Sequence::new(alloc)).into_vec();
        kept.remove(place);
        *documents = Sequence::from_vec(kept);
    }
}

/// Makes changes to the document of a name, in order. The files get its new text from `give_again`. If no document has this
/// name, or memory runs out, nothing changes.
pub fn change(
    alloc: Global,
    documents: &mut Sequence<Document>,
    name: &[u8],
    version: i64,
    changes: &[Change],
) -> Result<(), AllocError>
    ensures documents { IfOk result (λ _.
        documents.new ≡ with_document name.now (after_changes name.now version changes.now) documents.old) }
    ensures follows { (text : List ℕ → Option (List ℕ)) → Follows text documents.old → Follows text documents.new }
    ensures err { OnErr result (documents.new ≡ documents.old) }
{
    let Some(place) = index_of(documents.as_slice(), name) else {
        return Ok(());
    };
    let document = after_changes(alloc, &documents.as_slice()[place], name, version, changes)?;
    documents.set(place, document);
    Ok(())
}

fn document_at(documents: &[Document], place: usize) -> Option<&Document>
    ensures { option_map (λ d. d.now) result ≡ slice_get documents.now place }
{
    documents.get(place)
}

/// Gives the files the text of the document at a place, unless they have it. Says what they did with it.
#[tactic(auto, using(crate::proofs::DocumentLemmas::given_same))]
fn give_one<F: Files>(
    alloc: Global,
    files: &mut F,
    documents: &mut Sequence<Document>,
    place: usize,
) -> Written
    ensures documents { AreGiven documents.old documents.new }
    ensures follows { Follows (F.text files.old) documents.old → Follows (F.text files.new) documents.new }
    ensures waiting { IsTrue (is_waiting result) → IsTrue (any_behind documents.new) }
{
    let Some(document) = document_at(documents.as_slice(), place) else {
        return Written::Refused;
    };
    if document.in_step {
        return Written::Taken;
    }
    let written = files.write(document.name.as_slice(), document.text.as_slice());
    if !written.is_taken() {
        return written;
    }
    mark(alloc, documents, place);
    Written::Taken
}

/// Gives the files the texts that they don't have, in order. Says whether memory ran out for one; then the others wait, too.
pub fn give_again<F: Files>(
    alloc: Global,
    files: &mut F,
    documents: &mut Sequence<Document>,
) -> bool
    ensures documents { AreGiven documents.old documents.new }
    ensures follows { Follows (F.text files.old) documents.old → Follows (F.text files.new) documents.new }
    ensures behind { IsTrue result → IsTrue (any_behind documents.new) }
{
    'documents: for n in 0..documents.len() {
        if give_one(alloc, files, documents, n).is_waiting() {
            return true;
        }
    }
    false
}
