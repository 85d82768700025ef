//! Cases of databases that are resolved for a style with the fields `crossref` and `title`, a function for `misc`, and
//! the macro `s`, which stands for `S`.

ghost use Rattle.std.specs.Prelude.{◌≡◌, ◌≤◌, [], ◌∷◌, codes, length, IfOk, IfSome, IsTrue};
ghost use Rattle.bt_text.specs.NameList.{are_apart};

use crate::Done;
use crate::answer::{Answer, Raw, Spelled, put};
use crate::words::Words;
use bt_log::{Message, Place, Rank, Said};
use bt_resolve::{Cites, Declared, Entry, Macro, Resolved, resolve};
use bt_text::{Bytes, NameList, Sequence, Shared};
use std::alloc::{AllocError, Global};

fn fields(alloc: Global) -> Result<Sequence<Bytes>, AllocError>
    ensures { IfOk result (λ fields. fields ≡ codes "crossref" ∷ codes "title" ∷ []) }
{
    let mut fields = Sequence::new(alloc);
    fields.push(Bytes::copied(alloc, b"crossref")?)?;
    fields.push(Bytes::copied(alloc, b"title")?)?;
    Ok(fields)
}

fn types(alloc: Global) -> Result<Sequence<Bytes>, AllocError> {
    let kind = Bytes::copied(alloc, b"misc")?;
    Ok(Sequence::from_vec(vec![in alloc; kind]?))
}

fn macros(alloc: Global) -> Result<Sequence<Macro>, AllocError> {
    let name = Bytes::copied(alloc, b"s")?;
    let value = Bytes::copied(alloc, b"S")?;
    Ok(Sequence::from_vec(vec![in alloc; Macro { name, value }]?))
}

fn declared(alloc: Global) -> Result<Declared, AllocError>
    ensures { IfOk result (λ declared. declared.fields ≡ codes "crossref" ∷ codes "title" ∷ []) }
{
    let fields = fields(alloc)?;
    let types = types(alloc)?;
    let macros = macros(alloc)?;
    Ok(Declared {
        fields,
        types,
        macros,
    })
}

fn cite(alloc: Global, keys: &mut NameList, key: &str) -> Result<(), AllocError> {
    if keys.find(alloc, key.as_bytes())?.is_none() {
        keys.push(alloc, key.as_bytes())?;
    }
    Ok(())
}

/// Appends the keys of a word, separated by commas, to others; returns how many come before a `*`, if it has one.
fn cite_all(alloc: Global, keys: &mut NameList, word: &str) -> Result<Option<usize>, AllocError> {
    let mut star = None;
    for key in word.split(',') {
        if key == "*" {
            star = Some(keys.as_slice().len());
        } else {
            cite(alloc, keys, key)?;
        }
    }
    Ok(star)
}

fn star_within(star: Option<usize>, keys: &NameList) -> Option<usize>
    ensures { IfSome result (λ before. before ≤ length keys.now) }
{
    match star {
        Some(before) if before <= keys.as_slice().len() => Some(before),
        _ => None,
    }
}

impl Spelled for Entry {
    fn spell(&self, out: &mut Answer) {
        put!(out; Raw(self.key.as_slice()), " ", Raw(self.kind.as_slice()));
        if let Some(function) = self.function {
            put!(out; " ", function);
        }
        for place in 0..self.fields.len() {
            match self.fields.get(place) {
                None => put!(out; " -"),
                Some(text) => put!(out; " [", Raw(text.as_slice()), "]"),
            }
        }
    }
}

impl Spelled for Message {
    fn spell(&self, out: &mut Answer) {
        put!(out; if self.rank == Rank::Error { "error " } else { "warning " });
        if let Some(Place::DatabaseLine { database, line, .. }) = &self.place {
            put!(out; *database, ":");
            out.shown(line);
            put!(out; " ");
        }
        match &self.said {
            Said::Words(words) => put!(out; Raw(words.as_slice())),
            Said::OfFile { file, .. } => put!(out; Raw(file.as_slice())),
        }
        if let Some(second) = &self.second {
            put!(out; " | ", Raw(second.as_slice()));
        }
    }
}

fn push_resolved(out: &mut Answer, resolved: &Resolved) {
    out.list("", resolved.entries.as_slice(), " ; ", "");
    if resolved.preamble.len() > 0 {
        out.more(" ; ");
        put!(out; "preamble ", Raw(resolved.preamble.as_slice()));
    }
    if resolved.messages.len() > 0 {
        out.more(" ; ");
    }
    out.list("", resolved.messages.as_slice(), " ; ", "");
}

fn cites_of(alloc: Global, word: &str) -> Result<Cites, AllocError>
    ensures { IfOk result (λ cites. IfSome cites.star (λ before. before ≤ length cites.keys)) }
{
    let mut keys = NameList::new(alloc);
    let star = cite_all(alloc, &mut keys, word)?;
    let star = star_within(star, &keys);
    let keys = Shared::new(alloc, keys)?;
    Ok(Cites { keys, star })
}

/// Appends what the keys give with these texts of two databases.
fn push_told(
    words: Words<'_>,
    out: &mut Answer,
    declared: &Declared,
    cites: &Cites,
    texts: &[Shared<Bytes>],
) -> Done
    requires fields { IsTrue (are_apart declared.now.fields) }
    requires star { IfSome cites.now.star (λ before. before ≤ length cites.now.keys) }
{
    let min = words.count(2).min(65_535) as u32;
    push_resolved(out, &resolve(words.alloc, declared, cites, texts, min)?);
    Ok(())
}

/// Resolves the two databases of a case.
fn push_both(words: Words<'_>, out: &mut Answer, declared: &Declared, cites: &Cites) -> Done
    requires fields { IsTrue (are_apart declared.now.fields) }
    requires star { IfSome cites.now.star (λ before. before ≤ length cites.now.keys) }
{
    let first = Shared::<Bytes>::copied(words.alloc, &words.text(3)?)?;
    let second = Shared::<Bytes>::copied(words.alloc, &words.text(4)?)?;
    push_told(words, out, declared, cites, &[first, second])
}

pub fn push_answer(words: Words<'_>, out: &mut Answer) -> Done {
    let cites = cites_of(words.alloc, words.word(1))?;
    push_both(words, out, &declared(words.alloc)?, &cites)
}
