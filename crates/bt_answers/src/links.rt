//! Links from the names of files in a LaTeX text or an `.aux` file to these files.

ghost use Rattle.std.specs.Prelude.{◌≡◌, ◌≤◌, ◌<◌, ◌*◌, ◌^◌, ◌++◌, ◌∷◌, [], length, map, IfOk};
ghost use Rattle.std.specs.List.{fold, list_all};
ghost use Rattle.serde_json.specs.View.{view};
ghost use Rattle.bt_mentions.specs.Databases.{part};
ghost use Rattle.bt_answers.specs.Links.{extension, has_own_extension, full_name, is_plain_byte, behind_slash, file_name, folder, folder_before, ends_with, link_value, link_to, with_link_to, with_part, with_named, with_link, links_of};

use bt_documents::Document;
use bt_mentions::{Link, LinkKind, links, part};
use bt_places::{
    Paper, SHOWN_BYTES, Visit, has_extension, is_database, is_style, range_of, shown, with_files,
    with_value,
};
use bt_text::Bytes;
use serde_json::{Value, json};
use std::alloc::{AllocError, Global};

/// A search for the file that a link of a document names.
#[derive(Clone, Copy)]
struct Named<'a> {
    document: &'a Document,
    link: Link,
    /// A slash and the file's name.
    suffix: &'a [u8],
}

fn extension(kind: LinkKind) -> &'static [u8]
    ensures { result.now ≡ extension kind }
{
    match kind {
        LinkKind::Database => b".bib",
        LinkKind::Style => b".bst",
        LinkKind::Text => b".tex",
    }
}

/// Whether a name has an extension already. A text may name an `.aux` file, too.
fn has_own_extension(kind: LinkKind, name: &[u8]) -> bool
    ensures { result ≡ has_own_extension kind name.now }
{
    match kind {
        LinkKind::Database => has_extension(name, b".bib"),
        LinkKind::Style => has_extension(name, b".bst"),
        LinkKind::Text => has_extension(name, b".tex") || has_extension(name, b".aux"),
    }
}

/// A file's name with these bytes before it.
pub fn full_name(
    alloc: Global,
    before: &[u8],
    kind: LinkKind,
    name: &[u8],
) -> Result<Bytes, AllocError>
    ensures { IfOk result (λ full. full ≡ full_name before.now kind name.now) }
{
    let mut full = Bytes::copied(alloc, before)?;
    full.append(name)?;
    if has_own_extension(kind, name) {
        return Ok(full);
    }
    full.append(extension(kind))?;
    Ok(full)
}

/// Whether a byte stands for itself in a URI and in a file's name.
fn is_plain_byte(byte: u8) -> bool
    ensures { result ≡ is_plain_byte byte }
{
    let letter = byte.to_ascii_lowercase();
    b'a' <= letter && letter <= b'z' || b'+' <= byte && byte <= b'9' && byte != b',' || byte == b'_'
}

fn is_plain(name: &[u8]) -> bool
    ensures { result ≡ list_all is_plain_byte name.now }
{
    name.iter().all(|byte| is_plain_byte(*byte))
}

fn behind_slash(uri: &[u8]) -> usize
    ensures within { result ≤ length uri.now }
    ensures value { result ≡ behind_slash uri.now }
{
    uri.iter().rev().take_while(|byte| **byte != b'/').count()
}

fn folder(uri: &[u8]) -> &[u8]
    ensures { result.now ≡ folder uri.now }
{
    uri.split_at(uri.len() - behind_slash(uri)).0
}

/// The name of a file without its folder.
pub fn file_name(uri: &[u8]) -> &[u8]
    ensures { result.now ≡ file_name uri.now }
{
    uri.split_at(uri.len() - behind_slash(uri)).1
}

fn ends_with(uri: &[u8], suffix: &[u8]) -> bool
    ensures { result ≡ ends_with suffix.now uri.now }
{
    suffix.len() <= uri.len() && uri.split_at(uri.len() - suffix.len()).1 == suffix
}

fn link_value(alloc: Global, range: Value, target: &[u8]) -> Result<Value, AllocError>
    ensures { IfOk result (λ v. view v ≡ link_value (view range) target.now) }
{
    let target = shown(alloc, target)?;
    json!(in alloc; {"range": range, "target": target})
}

fn link_to(
    alloc: Global,
    document: &Document,
    link: Link,
    target: &[u8],
) -> Result<Value, AllocError>
    requires { 2 * length document.now.text < 2 ^ 64 }
    ensures { IfOk result (λ v. view v ≡ link_to document.now link target.now) }
{
    let counting = document.counting;
    let range = range_of(alloc, counting, &document.text, link.from, link.to)?;
    let value = link_value(alloc, range, target)?;
    Ok(value)
}

fn with_any_link(
    alloc: Global,
    document: &Document,
    link: Link,
    list: Vec<Value>,
    target: &[u8],
) -> Result<Vec<Value>, AllocError>
    requires { 2 * length document.now.text < 2 ^ 64 }
    ensures { IfOk result (λ all. map view all.items ≡ map view list.items ++ link_to document.now link target.now ∷ []) }
{
    let value = link_to(alloc, document, link, target)?;
    let all = with_value(list, value)?;
    Ok(all)
}

/// Adds a link, if the document has at most 1 GiB.
fn with_link_to(
    alloc: Global,
    document: &Document,
    link: Link,
    list: Vec<Value>,
    target: &[u8],
) -> Result<Vec<Value>, AllocError>
    ensures { IfOk result (λ all. map view all.items ≡ with_link_to document.now link (map view list.items) target.now) }
{
    if document.text.as_slice().len() > SHOWN_BYTES {
        return Ok(list);
    }
    with_any_link(alloc, document, link, list, target)
}

impl Visit for Named<'_> {
    ghost use Rattle.bt_answers.specs.Links.{with_file};

    ghost added = { λ n list uri text. with_file n.document.now n.link n.suffix.now list uri text };

    fn visit(
        &self,
        alloc: Global,
        list: Vec<Value>,
        uri: &[u8],
        text: &[u8],
    ) -> Result<Vec<Value>, AllocError> {
        let _ = text;
        if !ends_with(uri, self.suffix) {
            return Ok(list);
        }
        with_link_to(alloc, self.document, self.link, list, uri)
    }
}

/// The folder from which a name in a text of this folder leads to another text. LaTeX looks from the paper's folder, so
/// in `chapters/`, `chapters/two` isn't in a folder `chapters/chapters/`.
fn folder_before<'a>(own: &'a [u8], name: &[u8]) -> &'a [u8]
    ensures { result.now ≡ folder_before own.entry.now name.now }
{
    let repeated = folder(name);
    let start = own.len().saturating_sub(repeated.len());
    let (before, behind) = own.split_at(start);
    if behind == repeated && behind_slash(before) == 0 {
        before
    } else {
        own
    }
}

/// Adds the link to another part of the text.
fn with_part(
    alloc: Global,
    document: &Document,
    link: Link,
    list: Vec<Value>,
) -> Result<Vec<Value>, AllocError>
    ensures { IfOk result (λ all. map view all.items ≡
        with_part document.now link (map view list.items) (part link.from link.to document.now.text)) }
{
    let name = part(document.text.as_slice(), link.from, link.to);
    let before = folder_before(folder(document.name.as_slice()), name);
    let target = full_name(alloc, before, link.kind, name)?;
    let all = with_link_to(alloc, document, link, list, target.as_slice())?;
    Ok(all)
}

/// Adds the link to the file of the run that has this name.
fn with_named<P: Paper>(
    alloc: Global,
    paper: &P,
    document: &Document,
    link: Link,
    list: Vec<Value>,
) -> Result<Vec<Value>, AllocError>
    ensures { IfOk result (λ all. map view all.items ≡ with_named (P.shown paper.now).files document.now link
        (map view list.items) (part link.from link.to document.now.text)) }
{
    let name = part(document.text.as_slice(), link.from, link.to);
    let suffix = full_name(alloc, b"/", link.kind, name)?;
    let named = Named {
        document,
        link,
        suffix: suffix.as_slice(),
    };
    let all = with_files(alloc, paper, &named, list)?;
    Ok(all)
}

fn with_link<P: Paper>(
    alloc: Global,
    paper: &P,
    document: &Document,
    list: Vec<Value>,
    link: Link,
) -> Result<Vec<Value>, AllocError>
    ensures { IfOk result (λ all. map view all.items ≡
        with_link (P.shown paper.now).files document.now (map view list.items) link) }
{
    let name = part(document.text.as_slice(), link.from, link.to);
    if !is_plain(name) {
        return Ok(list);
    }
    match link.kind {
        LinkKind::Text => with_part(alloc, document, link, list),
        LinkKind::Database | LinkKind::Style => {
            let all = with_named(alloc, paper, document, link, list)?;
            Ok(all)
        }
    }
}

fn with_links<P: Paper>(
    alloc: Global,
    paper: &P,
    document: &Document,
    list: Vec<Value>,
    found: &[Link],
) -> Result<Vec<Value>, AllocError>
    ensures { IfOk result (λ all. map view all.items ≡
        fold (with_link (P.shown paper.now).files document.now) (map view list.items) found.now) }
{
    let mut all = list;
    'links: for link in found {
        all = with_link(alloc, paper, document, all, *link)?;
    }
    Ok(all)
}

/// The links of a document, unless it is a database or a style.
pub fn links_of<P: Paper>(
    alloc: Global,
    paper: &P,
    document: &Document,
) -> Result<Value, AllocError>
    ensures { IfOk result (λ v. view v ≡ links_of (P.shown paper.now).files document.now) }
{
    let name = document.name.as_slice();
    if is_database(name) || is_style(name) {
        return Ok(Value::Null);
    }
    let found = links(alloc, document.text.as_slice())?;
    let list = with_links(alloc, paper, document, Vec::new(alloc), found.as_slice())?;
    Ok(Value::Array(list))
}
