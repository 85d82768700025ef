//! Hints at names that nothing uses or declares, as diagnostics.

ghost use Rattle.std.specs.Prelude.{◌≡◌, ◌++◌, map, filter, not, IfOk};
ghost use Rattle.std.specs.List.{find};
ghost use Rattle.serde_json.specs.View.{view};
ghost use Rattle.bt_style_text.specs.Hinting.{meant, likely_name};
ghost use Rattle.bt_style_answers.specs.Hinting.{unused_words, unknown_words, unused_hint, unknown_hint, unused_at, unknown_at, unused_in, unknown_in, hints_of, hints_in, is_at, likely_for, likely_among, likely_at, fault_words};

use crate::shown_style::ShownStyle;
use bt_shapes::shown;
use bt_style_text::{
    Mark, Word, declarations, likely_name, marks_of, meant, part, unknown, unused,
};
use bt_text::Bytes;
use serde_json::{Value, json};
use std::alloc::{AllocError, Global};

fn unused_words(alloc: Global, name: &[u8]) -> Result<Bytes, AllocError>
    ensures { IfOk result (λ words. words ≡ unused_words name.now) }
{
    Bytes::of(alloc, &[b"Nothing uses `", name, b"`."])
}

fn unknown_words(alloc: Global, name: &[u8], likely: &[u8]) -> Result<Bytes, AllocError>
    ensures { IfOk result (λ words. words ≡ unknown_words name.now likely.now) }
{
    if likely.is_empty() {
        Bytes::of(alloc, &[b"Nothing declares `", name, b"`."])
    } else {
        Bytes::of(
            alloc,
            &[
                b"Nothing declares `",
                name,
                b"`. Did you mean `",
                likely,
                b"`?",
            ],
        )
    }
}

/// A hint with the tag of what could go.
fn unused_hint(alloc: Global, range: Value, words: &[u8]) -> Result<Value, AllocError>
    ensures { IfOk result (λ v. view v ≡ unused_hint (view range) words.now) }
{
    let words = shown(alloc, words)?;
    json!(in alloc; {"range": range, "severity": 4, "source": "bibtex", "message": words, "tags": [1]})
}

fn unknown_hint(alloc: Global, range: Value, words: &[u8]) -> Result<Value, AllocError>
    ensures { IfOk result (λ v. view v ≡ unknown_hint (view range) words.now) }
{
    let words = shown(alloc, words)?;
    json!(in alloc; {"range": range, "severity": 4, "source": "bibtex", "message": words})
}

/// What is said of a name that nothing declares, by a style's declarations.
fn words_of_unknown(
    alloc: Global,
    text: &[u8],
    declared: &[Mark],
    name: &[u8],
) -> Result<Bytes, AllocError>
    ensures { IfOk result (λ words. words ≡
        unknown_words name.now (likely_name text.now (meant text.now declared.now name.now))) }
{
    let likely = meant(alloc, text, declared, name)?;
    let words = unknown_words(alloc, name, likely_name(text, likely))?;
    Ok(words)
}

/// What an error says at a word, and the name that is probably meant, if there is any.
pub fn fault_words(alloc: Global, said: &[u8], likely: &[u8]) -> Result<Bytes, AllocError>
    ensures { IfOk result (λ words. words ≡ fault_words said.now likely.now) }
{
    if likely.is_empty() {
        Bytes::copied(alloc, said)
    } else {
        Bytes::of(alloc, &[said, b". Did you mean `", likely, b"`?"])
    }
}

/// Whether a name is the word of a fault. A quote can precede the name.
fn is_at(fault: Option<Word>, mark: Mark) -> bool
    ensures { result ≡ is_at fault mark }
{
    match fault {
        Some(word) => word.end == mark.end,
        None => false,
    }
}

fn first_at(marks: &[Mark], word: Word) -> Option<Mark>
    ensures { result ≡ find (is_at (Some word)) marks.now }
{
    marks.iter().copied().find(|mark| is_at(Some(word), *mark))
}

/// The names that nothing declares, without the one at a fault.
fn but_at(alloc: Global, fault: Option<Word>, marks: &[Mark]) -> Result<Vec<Mark>, AllocError>
    ensures { IfOk result (λ found. found.items ≡ filter (λ mark. not (is_at fault mark)) marks.now) }
{
    marks
        .iter()
        .copied()
        .filter(|mark| !is_at(fault, *mark))
        .collect(alloc)
}

fn likely_for(
    alloc: Global,
    text: &[u8],
    declared: &[Mark],
    unknown: Option<Mark>,
) -> Result<Bytes, AllocError>
    ensures { IfOk result (λ name. name ≡ likely_for text.now declared.now unknown) }
{
    let Some(mark) = unknown else {
        return Ok(Bytes::new(alloc));
    };
    let likely = meant(alloc, text, declared, part(text, mark.start, mark.end))?;
    Bytes::copied(alloc, likely_name(text, likely))
}

fn likely_among(alloc: Global, text: &[u8], marks: &[Mark], word: Word) -> Result<Bytes, AllocError>
    ensures { IfOk result (λ name. name ≡ likely_among text.now marks.now word) }
{
    let declared = declarations(alloc, marks)?;
    let found = unknown(alloc, text, marks, declared.as_slice())?;
    let name = likely_for(
        alloc,
        text,
        declared.as_slice(),
        first_at(found.as_slice(), word),
    )?;
    Ok(name)
}

impl ShownStyle<'_> {
    /// The name that is probably meant by a word that nothing declares; empty if the style declares it.
    pub fn likely_at(&self, alloc: Global, word: Word) -> Result<Bytes, AllocError>
        ensures { IfOk result (λ name. name ≡ likely_at self.now.text.now word) }
    {
        let marks = marks_of(alloc, self.text.as_slice())?;
        let name = likely_among(alloc, self.text.as_slice(), marks.as_slice(), word)?;
        Ok(name)
    }

    fn unused_at(&self, alloc: Global, mark: Mark) -> Result<Value, AllocError>
        ensures { IfOk result (λ v. view v ≡ unused_at self.now.counting self.now.text.now mark) }
    {
        let words = unused_words(alloc, part(self.text.as_slice(), mark.start, mark.end))?;
        let range = self.range(alloc, mark.start, mark.end)?;
        let hint = unused_hint(alloc, range, words.as_slice())?;
        Ok(hint)
    }

    fn unknown_at(&self, alloc: Global, declared: &[Mark], mark: Mark) -> Result<Value, AllocError>
        ensures { IfOk result (λ v. view v ≡ unknown_at self.now.counting self.now.text.now declared.now mark) }
    {
        let text = self.text.as_slice();
        let name = part(text, mark.start, mark.end);
        let words = words_of_unknown(alloc, text, declared, name)?;
        let range = self.range(alloc, mark.start, mark.end)?;
        let hint = unknown_hint(alloc, range, words.as_slice())?;
        Ok(hint)
    }

    fn add_unused(
        &self,
        alloc: Global,
        marks: &[Mark],
        list: Vec<Value>,
    ) -> Result<Vec<Value>, AllocError>
        ensures { IfOk result (λ all. map view all.items ≡
            map view list.items ++ map (unused_at self.now.counting self.now.text.now) marks.now) }
    {
        let mut all = list;
        'marks: for mark in marks {
            all.push(self.unused_at(alloc, *mark)?)?;
        }
        Ok(all)
    }

    fn add_unknown(
        &self,
        alloc: Global,
        declared: &[Mark],
        marks: &[Mark],
        list: Vec<Value>,
    ) -> Result<Vec<Value>, AllocError>
        ensures { IfOk result (λ all. map view all.items ≡ map view list.items
            ++ map (unknown_at self.now.counting self.now.text.now declared.now) marks.now) }
    {
        let mut all = list;
        'marks: for mark in marks {
            all.push(self.unknown_at(alloc, declared, *mark)?)?;
        }
        Ok(all)
    }

    fn with_unused(
        &self,
        alloc: Global,
        marks: &[Mark],
        list: Vec<Value>,
    ) -> Result<Vec<Value>, AllocError>
        ensures { IfOk result (λ all. map view all.items ≡
            map view list.items ++ unused_in self.now.counting self.now.text.now marks.now) }
    {
        let found = unused(alloc, self.text.as_slice(), marks)?;
        let all = self.add_unused(alloc, found.as_slice(), list)?;
        Ok(all)
    }

    fn with_unknown(
        &self,
        alloc: Global,
        fault: Option<Word>,
        marks: &[Mark],
        list: Vec<Value>,
    ) -> Result<Vec<Value>, AllocError>
        ensures { IfOk result (λ all. map view all.items ≡
            map view list.items ++ unknown_in self.now.counting fault self.now.text.now marks.now) }
    {
        let declared = declarations(alloc, marks)?;
        let unknown = unknown(alloc, self.text.as_slice(), marks, declared.as_slice())?;
        let found = but_at(alloc, fault, unknown.as_slice())?;
        let all = self.add_unknown(alloc, declared.as_slice(), found.as_slice(), list)?;
        Ok(all)
    }

    fn with_both(
        &self,
        alloc: Global,
        fault: Option<Word>,
        marks: &[Mark],
        list: Vec<Value>,
    ) -> Result<Vec<Value>, AllocError>
        ensures { IfOk result (λ all. map view all.items ≡
            map view list.items ++ hints_of self.now.counting fault self.now.text.now marks.now) }
    {
        let some = self.with_unused(alloc, marks, list)?;
        let all = self.with_unknown(alloc, fault, marks, some)?;
        Ok(all)
    }

    /// Adds the hints for the text: at what nothing uses, and at what nothing declares. If the text has a fault, its word gets
    /// no hint: the error says it (`fault_words`).
    pub fn with_hints(
        &self,
        alloc: Global,
        fault: Option<Word>,
        list: Vec<Value>,
    ) -> Result<Vec<Value>, AllocError>
        ensures { IfOk result (λ all. map view all.items ≡
            map view list.items ++ hints_in self.now.counting fault self.now.text.now) }
    {
        let marks = marks_of(alloc, self.text.as_slice())?;
        let all = self.with_both(alloc, fault, marks.as_slice(), list)?;
        Ok(all)
    }
}
