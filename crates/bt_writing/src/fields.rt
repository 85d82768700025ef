//! Completes the fields of an entry: those that the paper's style reads, the missing ones first.

ghost use Rattle.std.specs.Prelude.{◌≡◌, map, IfOk};
ghost use Rattle.std.specs.List.{fold};
ghost use Rattle.serde_json.specs.View.{view};
ghost use Rattle.bt_writing.specs.Fields.{has_field, with_field, with_read, with_fields, field_candidates};

use crate::style_names::StyleText;
use crate::written::Written;
use bt_bib::Field;
use bt_places::{Paper, Visit, is_style, with_files, with_value};
use bt_style_text::{Mark, marks_of};
use bt_text::eq_ignore_ascii_case;
use serde_json::Value;
use std::alloc::{AllocError, Global};

/// The fields that an entry has, and the part that a completion replaces.
#[derive(Clone, Copy)]
pub struct Fields<'a> {
    pub present: &'a [Field],
    pub written: Written,
}

fn has_field(present: &[Field], name: &[u8]) -> bool
    ensures { result ≡ has_field present.now name.now }
{
    present
        .iter()
        .any(|field| eq_ignore_ascii_case(field.name.as_slice(), name))
}

impl Fields<'_> {
    fn with_field(
        &self,
        alloc: Global,
        list: Vec<Value>,
        name: &[u8],
    ) -> Result<Vec<Value>, AllocError>
        ensures { IfOk result (λ all. map view all.items ≡
            with_field self.now.present.now self.now.written (map view list.items) name.now) }
    {
        let is_present = has_field(self.present, name);
        let candidate = self.written.ordered_item(alloc, 5, name, is_present)?;
        with_value(list, candidate)
    }

    fn with_read(
        &self,
        alloc: Global,
        style: StyleText,
        list: Vec<Value>,
        mark: Mark,
    ) -> Result<Vec<Value>, AllocError>
        ensures { IfOk result (λ all. map view all.items ≡ with_read self.now.present.now self.now.written
            style.entry.text.now style.entry.marks.now (map view list.items) mark) }
    {
        if style.is_read(mark) {
            self.with_field(alloc, list, style.name(mark))
        } else {
            Ok(list)
        }
    }

    fn with_each(
        &self,
        alloc: Global,
        style: StyleText,
        list: Vec<Value>,
    ) -> Result<Vec<Value>, AllocError>
        ensures { IfOk result (λ all. map view all.items ≡ fold (with_read self.now.present.now self.now.written
            style.entry.text.now style.entry.marks.now) (map view list.items) style.entry.marks.now) }
    {
        let mut all = list;
        'marks: for mark in style.marks {
            all = self.with_read(alloc, style, all, *mark)?;
        }
        Ok(all)
    }

    fn with_fields(
        &self,
        alloc: Global,
        text: &[u8],
        list: Vec<Value>,
    ) -> Result<Vec<Value>, AllocError>
        ensures { IfOk result (λ all. map view all.items ≡
            with_fields self.now.present.now self.now.written (map view list.items) text.now) }
    {
        let marks = marks_of(alloc, text)?;
        let style = StyleText {
            text,
            marks: marks.as_slice(),
        };
        let first = self.with_field(alloc, list, b"crossref")?;
        let all = self.with_each(alloc, style, first)?;
        Ok(all)
    }
}

impl Visit for Fields<'_> {
    ghost use Rattle.bt_writing.specs.Fields.{with_style};

    ghost added = { λ f list uri text. with_style f.present.now f.written list uri text };

    fn visit(
        &self,
        alloc: Global,
        list: Vec<Value>,
        uri: &[u8],
        text: &[u8],
    ) -> Result<Vec<Value>, AllocError> {
        if is_style(uri) {
            self.with_fields(alloc, text, list)
        } else {
            Ok(list)
        }
    }
}

/// What is offered to an entry that has these fields.
pub fn field_candidates<P: Paper>(
    alloc: Global,
    paper: &P,
    fields: Fields,
) -> Result<Vec<Value>, AllocError>
    ensures { IfOk result (λ list. map view list.items ≡
        field_candidates (P.shown paper.now).files fields.entry.present.now fields.entry.written) }
{
    with_files(alloc, paper, &fields, Vec::new(alloc))
}
