//! What databases use of the paper's style: its macros, and the functions of their entries' types.

use bt_places::{Editor, SHOWN_BYTES, Visit, is_style};
use bt_positions::IndexedText;
use bt_style_answers::{Lent, ShownStyle};
use serde_json::Value;
use std::alloc::{AllocError, Global};

/// A search for where a style declares what a database uses.
#[derive(Clone, Copy)]
pub struct Loan<'a> {
    pub editor: Editor<'a>,
    pub lent: Lent,
    pub name: &'a [u8],
}

impl Visit for Loan<'_> {
    ghost use Rattle.bt_places.specs.Editor.{counting_in};
    ghost use Rattle.bt_answers.specs.Lending.{with_lent};

    ghost added = { λ l list uri text.
        with_lent (counting_in l.editor.counting l.editor.documents.now) l.lent l.name.now list uri text };

    fn visit(
        &self,
        alloc: Global,
        list: Vec<Value>,
        uri: &[u8],
        text: &[u8],
    ) -> Result<Vec<Value>, AllocError> {
        if !is_style(uri) || text.len() > SHOWN_BYTES {
            return Ok(list);
        }
        let indexed = IndexedText::copied(alloc, text)?;
        let style = ShownStyle {
            uri,
            counting: self.editor.counting_in(uri),
            text: &indexed,
        };
        let all = style.with_declaration(alloc, list, self.lent, self.name)?;
        Ok(all)
    }
}
