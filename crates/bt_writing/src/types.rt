//! Completes what follows an `@`: the types of the standard styles, those that the paper's style knows first, and its own.

ghost use Rattle.std.specs.Prelude.{◌≡◌, map, IfOk};
ghost use Rattle.std.specs.List.{fold, list_any};
ghost use Rattle.serde_json.specs.View.{view};
ghost use Rattle.bt_text.specs.CaseFolding.{is_same_folded};
ghost use Rattle.bt_writing.specs.Types.{word_of, types, is_standard, with_type, with_own_type, with_types_in, or_standard, type_candidates};

use crate::style_names::StyleText;
use crate::written::Written;
use bt_places::{Paper, Visit, is_any, is_style, with_files, with_value};
use bt_style_text::{Mark, marks_of};
use bt_text::eq_ignore_ascii_case;
use serde_json::Value;
use std::alloc::{AllocError, Global};

/// What can follow an `@`.
#[derive(Clone, Copy)]
pub enum EntryType {
    Article,
    Book,
    Booklet,
    Conference,
    InBook,
    InCollection,
    InProceedings,
    Manual,
    MastersThesis,
    Misc,
    PhdThesis,
    Proceedings,
    TechReport,
    Unpublished,
    StringDefinition,
    Preamble,
    Comment,
}

/// The types, and the part that a completion replaces.
#[derive(Clone, Copy)]
struct StyleTypes {
    written: Written,
}

impl EntryType {
    /// The types of the standard styles, and the words that aren't types.
    pub const ALL: [EntryType; 17] = [
        EntryType::Article,
        EntryType::Book,
        EntryType::Booklet,
        EntryType::Conference,
        EntryType::InBook,
        EntryType::InCollection,
        EntryType::InProceedings,
        EntryType::Manual,
        EntryType::MastersThesis,
        EntryType::Misc,
        EntryType::PhdThesis,
        EntryType::Proceedings,
        EntryType::TechReport,
        EntryType::Unpublished,
        EntryType::StringDefinition,
        EntryType::Preamble,
        EntryType::Comment,
    ];

    fn word(self) -> &'static [u8]
        ensures { result.now ≡ word_of self }
    {
        match self {
            EntryType::Article => b"article",
            EntryType::Book => b"book",
            EntryType::Booklet => b"booklet",
            EntryType::Conference => b"conference",
            EntryType::InBook => b"inbook",
            EntryType::InCollection => b"incollection",
            EntryType::InProceedings => b"inproceedings",
            EntryType::Manual => b"manual",
            EntryType::MastersThesis => b"mastersthesis",
            EntryType::Misc => b"misc",
            EntryType::PhdThesis => b"phdthesis",
            EntryType::Proceedings => b"proceedings",
            EntryType::TechReport => b"techreport",
            EntryType::Unpublished => b"unpublished",
            EntryType::StringDefinition => b"string",
            EntryType::Preamble => b"preamble",
            EntryType::Comment => b"comment",
        }
    }
}

fn is_any_word(some: &[EntryType], name: &[u8]) -> bool
    ensures { result ≡ list_any (λ t. is_same_folded (word_of t) name.now) some.now }
{
    some.iter()
        .any(|one| eq_ignore_ascii_case(one.word(), name))
}

/// Whether a name is one that the standard styles have, or no type.
#[tactic(auto, unfolding(crate::specs::Types::types))]
fn is_standard(name: &[u8]) -> bool
    ensures { result ≡ is_standard name.now }
{
    is_any_word(EntryType::ALL.as_slice(), name)
}

impl StyleTypes {
    fn with_type(
        &self,
        alloc: Global,
        style: StyleText,
        list: Vec<Value>,
        one: EntryType,
    ) -> Result<Vec<Value>, AllocError>
        ensures { IfOk result (λ all. map view all.items ≡ with_type self.now.written
            style.entry.text.now style.entry.marks.now (map view list.items) one) }
    {
        let is_unknown = !style.has_function(one.word());
        let candidate = self.written.ordered_item(alloc, 7, one.word(), is_unknown)?;
        with_value(list, candidate)
    }

    fn with_each(
        &self,
        alloc: Global,
        style: StyleText,
        list: Vec<Value>,
        some: &[EntryType],
    ) -> Result<Vec<Value>, AllocError>
        ensures { IfOk result (λ all. map view all.items ≡
            fold (with_type self.now.written style.entry.text.now style.entry.marks.now) (map view list.items) some.now) }
    {
        let mut all = list;
        'types: for one in some {
            all = self.with_type(alloc, style, all, *one)?;
        }
        Ok(all)
    }

    #[tactic(auto, unfolding(crate::specs::Types::types))]
    fn with_standard(
        &self,
        alloc: Global,
        style: StyleText,
        list: Vec<Value>,
    ) -> Result<Vec<Value>, AllocError>
        ensures { IfOk result (λ all. map view all.items ≡
            fold (with_type self.now.written style.entry.text.now style.entry.marks.now) (map view list.items) types) }
    {
        self.with_each(alloc, style, list, EntryType::ALL.as_slice())
    }

    fn with_own_type(
        &self,
        alloc: Global,
        style: StyleText,
        list: Vec<Value>,
        mark: Mark,
    ) -> Result<Vec<Value>, AllocError>
        ensures { IfOk result (λ all. map view all.items ≡ with_own_type self.now.written
            style.entry.text.now style.entry.marks.now (map view list.items) mark) }
    {
        let name = style.name(mark);
        if !style.is_type(mark) || is_standard(name) {
            return Ok(list);
        }
        let candidate = self.written.ordered_item(alloc, 7, name, false)?;
        with_value(list, candidate)
    }

    fn with_own(
        &self,
        alloc: Global,
        style: StyleText,
        list: Vec<Value>,
    ) -> Result<Vec<Value>, AllocError>
        ensures { IfOk result (λ all. map view all.items ≡ fold (with_own_type self.now.written
            style.entry.text.now style.entry.marks.now) (map view list.items) style.entry.marks.now) }
    {
        let mut all = list;
        'marks: for mark in style.marks {
            all = self.with_own_type(alloc, style, all, *mark)?;
        }
        Ok(all)
    }

    fn with_types_in(
        &self,
        alloc: Global,
        text: &[u8],
        list: Vec<Value>,
    ) -> Result<Vec<Value>, AllocError>
        ensures { IfOk result (λ all. map view all.items ≡ with_types_in self.now.written (map view list.items) text.now) }
    {
        let marks = marks_of(alloc, text)?;
        let style = StyleText {
            text,
            marks: marks.as_slice(),
        };
        let standard = self.with_standard(alloc, style, list)?;
        let all = self.with_own(alloc, style, standard)?;
        Ok(all)
    }

    /// These candidates, or all standard types as unknown ones if there are none: the paper has no style.
    fn or_standard(&self, alloc: Global, list: Vec<Value>) -> Result<Vec<Value>, AllocError>
        ensures { IfOk result (λ all. map view all.items ≡ or_standard self.now.written (map view list.items)) }
    {
        if is_any(list.as_slice()) {
            return Ok(list);
        }
        let style = StyleText {
            text: &[],
            marks: &[],
        };
        self.with_standard(alloc, style, Vec::new(alloc))
    }
}

impl Visit for StyleTypes {
    ghost use Rattle.bt_writing.specs.Types.{with_types_of};

    ghost added = { λ s list uri text. with_types_of s.written list uri text };

    fn visit(
        &self,
        alloc: Global,
        list: Vec<Value>,
        uri: &[u8],
        text: &[u8],
    ) -> Result<Vec<Value>, AllocError> {
        if is_style(uri) {
            self.with_types_in(alloc, text, list)
        } else {
            Ok(list)
        }
    }
}

/// What is offered after an `@`.
pub fn type_candidates<P: Paper>(
    alloc: Global,
    paper: &P,
    written: Written,
) -> Result<Vec<Value>, AllocError>
    ensures { IfOk result (λ list. map view list.items ≡ type_candidates written (P.shown paper.now).files) }
{
    let types = StyleTypes { written };
    let list = with_files(alloc, paper, &types, Vec::new(alloc))?;
    let all = types.or_standard(alloc, list)?;
    Ok(all)
}
