//! What is shown of the name under the cursor.

ghost use Rattle.std.specs.Prelude.{◌≡◌, IfOk};
ghost use Rattle.serde_json.specs.View.{view};
ghost use Rattle.bt_style_answers.specs.Hovering.{kind_of, hover_contents, shown_words, hover_at};

use crate::shown_style::ShownStyle;
use bt_effects::with_notes;
use bt_positions::Position;
use bt_shapes::shown;
use bt_style_text::{hover_of, marks_of};
use serde_json::{Value, json};
use std::alloc::{AllocError, Global};

fn kind_of(plain: bool) -> &'static str
    ensures { result.now ≡ kind_of plain }
{
    if plain { "plaintext" } else { "markdown" }
}

/// What a hover shows of words, as plain text or in Markdown.
pub fn hover_contents(alloc: Global, plain: bool, words: &[u8]) -> Result<Value, AllocError>
    ensures { IfOk result (λ v. view v ≡ hover_contents plain words.now) }
{
    let kind = kind_of(plain);
    let words = shown(alloc, words)?;
    json!(in alloc; {"contents": {"kind": kind, "value": words}})
}

fn shown_words(alloc: Global, plain: bool, words: &[u8]) -> Result<Value, AllocError>
    ensures { IfOk result (λ v. view v ≡ shown_words plain words.now) }
{
    if words.is_empty() {
        Ok(Value::Null)
    } else {
        hover_contents(alloc, plain, words)
    }
}

impl ShownStyle<'_> {
    /// What is shown of the name at a position, and the notes below, as plain text or in Markdown; null if there is nothing
    /// to say.
    pub fn hover_at(
        &self,
        alloc: Global,
        at: Position,
        notes: &[u8],
        plain: bool,
    ) -> Result<Value, AllocError>
        ensures { IfOk result (λ v. view v ≡ hover_at plain self.now.counting self.now.text.now at notes.now) }
    {
        let text = self.text.as_slice();
        let place = self.text.offset_of(self.counting, at);
        let marks = marks_of(alloc, text)?;
        let said = hover_of(alloc, text, marks.as_slice(), place)?;
        let words = with_notes(alloc, said.as_slice(), notes)?;
        let value = shown_words(alloc, plain, words.as_slice())?;
        Ok(value)
    }
}
