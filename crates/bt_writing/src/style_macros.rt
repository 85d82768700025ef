//! Completes the macros that the paper's style defines.

ghost use Rattle.std.specs.Prelude.{◌≡◌, map, IfOk};
ghost use Rattle.std.specs.List.{fold};
ghost use Rattle.serde_json.specs.View.{view};
ghost use Rattle.bt_writing.specs.StyleMacros.{with_style_macro, with_macros_in, with_style_macros};

use crate::completing::with_name;
use crate::style_names::is_macro;
use crate::written::Written;
use bt_places::{Paper, Visit, is_style, with_files};
use bt_style_text::{Mark, marks_of, part};
use serde_json::Value;
use std::alloc::{AllocError, Global};

/// The macros of the style.
#[derive(Clone, Copy)]
struct StyleNames {
    written: Written,
}

impl StyleNames {
    fn with_style_macro(
        &self,
        alloc: Global,
        text: &[u8],
        list: Vec<Value>,
        one: Mark,
    ) -> Result<Vec<Value>, AllocError>
        ensures { IfOk result (λ all. map view all.items ≡
            with_style_macro self.now.written text.now (map view list.items) one) }
    {
        if is_macro(one.role) {
            with_name(alloc, self.written, part(text, one.start, one.end), list)
        } else {
            Ok(list)
        }
    }

    fn with_macros(
        &self,
        alloc: Global,
        text: &[u8],
        list: Vec<Value>,
        marks: &[Mark],
    ) -> Result<Vec<Value>, AllocError>
        ensures { IfOk result (λ all. map view all.items ≡
            fold (with_style_macro self.now.written text.now) (map view list.items) marks.now) }
    {
        let mut all = list;
        'marks: for one in marks {
            all = self.with_style_macro(alloc, text, all, *one)?;
        }
        Ok(all)
    }

    fn with_macros_in(
        &self,
        alloc: Global,
        text: &[u8],
        list: Vec<Value>,
    ) -> Result<Vec<Value>, AllocError>
        ensures { IfOk result (λ all. map view all.items ≡ with_macros_in self.now.written (map view list.items) text.now) }
    {
        let marks = marks_of(alloc, text)?;
        let all = self.with_macros(alloc, text, list, marks.as_slice())?;
        Ok(all)
    }
}

impl Visit for StyleNames {
    ghost use Rattle.bt_writing.specs.StyleMacros.{with_macros_of};

    ghost added = { λ s list uri text. with_macros_of s.written list uri text };

    fn visit(
        &self,
        alloc: Global,
        list: Vec<Value>,
        uri: &[u8],
        text: &[u8],
    ) -> Result<Vec<Value>, AllocError> {
        if is_style(uri) {
            self.with_macros_in(alloc, text, list)
        } else {
            Ok(list)
        }
    }
}

/// Adds what is offered for the macros of the paper's style.
pub fn with_style_macros<P: Paper>(
    alloc: Global,
    paper: &P,
    written: Written,
    list: Vec<Value>,
) -> Result<Vec<Value>, AllocError>
    ensures { IfOk result (λ all. map view all.items ≡ with_style_macros written (P.shown paper.now).files (map view list.items)) }
{
    let macros = StyleNames { written };
    with_files(alloc, paper, &macros, list)
}
