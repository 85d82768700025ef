//! An action in a style: it writes the likely name in place of a misspelled one.

ghost use Rattle.std.specs.Prelude.{◌≡◌, ◌<◌, ◌*◌, ◌^◌, [], length, map, IfOk};
ghost use Rattle.std.specs.List.{fold};
ghost use Rattle.std.specs.String.{string_bytes};
ghost use Rattle.serde_json.specs.View.{view};
ghost use Rattle.bt_style_text.specs.Hinting.{meant, likely_name};
ghost use Rattle.bt_style_text.specs.Parts.{part};
ghost use Rattle.bt_writing.specs.Spellings.{touches, spelling_title, likely_for, spelling, with_likely, with_spelling, spellings_in, spellings};

use crate::quick_fix::{action, edit_at};
use bt_documents::Document;
use bt_places::{SHOWN_BYTES, with_value};
use bt_shapes::shown;
use bt_style_text::{Mark, declarations, likely_name, marks_of, meant, part, unknown};
use bt_text::Bytes;
use serde_json::Value;
use std::alloc::{AllocError, Global};

/// A part of a style's text, and what the style declares.
#[derive(Clone, Copy)]
struct Misspelled<'a> {
    document: &'a Document,
    declared: &'a [Mark],
    from: usize,
    to: usize,
}

fn spelling_title(alloc: Global, likely: &[u8]) -> Result<String, AllocError>
    ensures { IfOk result (λ title. string_bytes title ≡ spelling_title likely.now) }
{
    let name = shown(alloc, likely)?;
    format!(in alloc; "Write `{name}`")
}

impl Misspelled<'_> {
    fn touches(&self, mark: Mark) -> bool
        ensures { result ≡ touches self.now.from self.now.to mark }
    {
        mark.start <= self.to && self.from <= mark.end
    }

    /// The name that is probably meant; empty if there is none.
    fn likely_for(&self, alloc: Global, mark: Mark) -> Result<Bytes, AllocError>
        ensures { IfOk result (λ name. name ≡ likely_for self.now.document.now self.now.declared.now mark) }
    {
        let text = self.document.text.as_slice();
        let likely = meant(alloc, text, self.declared, part(text, mark.start, mark.end))?;
        Bytes::copied(alloc, likely_name(text, likely))
    }

    fn spelling(&self, alloc: Global, mark: Mark, likely: &[u8]) -> Result<Value, AllocError>
        requires { 2 * length self.now.document.now.text < 2 ^ 64 }
        ensures { IfOk result (λ v. view v ≡ spelling self.now.document.now mark likely.now) }
    {
        let edit = edit_at(alloc, self.document, mark.start, mark.end, likely)?;
        let title = spelling_title(alloc, likely)?;
        let value = action(alloc, title.as_str(), edit)?;
        Ok(value)
    }

    fn with_likely(
        &self,
        alloc: Global,
        list: Vec<Value>,
        mark: Mark,
        likely: &[u8],
    ) -> Result<Vec<Value>, AllocError>
        requires { 2 * length self.now.document.now.text < 2 ^ 64 }
        ensures { IfOk result (λ all. map view all.items ≡
            with_likely self.now.document.now mark (map view list.items) likely.now) }
    {
        if likely.is_empty() {
            return Ok(list);
        }
        let value = self.spelling(alloc, mark, likely)?;
        let all = with_value(list, value)?;
        Ok(all)
    }

    /// Adds the action for a name that nothing declares, if it lies here and another one is probably meant.
    fn with_spelling(
        &self,
        alloc: Global,
        list: Vec<Value>,
        mark: Mark,
    ) -> Result<Vec<Value>, AllocError>
        requires { 2 * length self.now.document.now.text < 2 ^ 64 }
        ensures { IfOk result (λ all. map view all.items ≡ with_spelling self.now.document.now self.now.declared.now
            self.now.from self.now.to (map view list.items) mark) }
    {
        if !self.touches(mark) {
            return Ok(list);
        }
        let likely = self.likely_for(alloc, mark)?;
        let all = self.with_likely(alloc, list, mark, likely.as_slice())?;
        Ok(all)
    }

    fn with_each(&self, alloc: Global, marks: &[Mark]) -> Result<Vec<Value>, AllocError>
        requires { 2 * length self.now.document.now.text < 2 ^ 64 }
        ensures { IfOk result (λ all. map view all.items ≡ fold (with_spelling self.now.document.now self.now.declared.now
            self.now.from self.now.to) [] marks.now) }
    {
        let mut all = Vec::new(alloc);
        'marks: for mark in marks {
            all = self.with_spelling(alloc, all, *mark)?;
        }
        Ok(all)
    }
}

fn spellings_in(
    alloc: Global,
    document: &Document,
    marks: &[Mark],
    from: usize,
    to: usize,
) -> Result<Vec<Value>, AllocError>
    requires { 2 * length document.now.text < 2 ^ 64 }
    ensures { IfOk result (λ all. map view all.items ≡ spellings_in document.now marks.now from to) }
{
    let text = document.text.as_slice();
    let declared = declarations(alloc, marks)?;
    let found = unknown(alloc, text, marks, declared.as_slice())?;
    let part = Misspelled {
        document,
        declared: declared.as_slice(),
        from,
        to,
    };
    let all = part.with_each(alloc, found.as_slice())?;
    Ok(all)
}

/// The actions for names between two places of a style's text that nothing declares. None in a text of more than 1 GiB.
pub fn spellings(
    alloc: Global,
    document: &Document,
    from: usize,
    to: usize,
) -> Result<Vec<Value>, AllocError>
    ensures { IfOk result (λ all. map view all.items ≡ spellings document.now from to) }
{
    let text = document.text.as_slice();
    if text.len() > SHOWN_BYTES {
        return Ok(Vec::new(alloc));
    }
    let marks = marks_of(alloc, text)?;
    let all = spellings_in(alloc, document, marks.as_slice(), from, to)?;
    Ok(all)
}
