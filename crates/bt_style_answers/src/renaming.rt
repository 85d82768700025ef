//! Renames the name under the cursor.

ghost use Rattle.std.specs.Prelude.{◌≡◌, map, IfOk};
ghost use Rattle.serde_json.specs.View.{view};
ghost use Rattle.bt_style_answers.specs.Renaming.{refused_or, edit_of, file_changes, edits_or_refusal, rename_at, range_or_refusal, renamed_range_at};

use crate::shown_style::ShownStyle;
use bt_positions::Position;
use bt_shapes::{file_edit, text_edit, with_value, workspace_edit};
use bt_style_text::{Mark, RenameRefusal, definition, marks_of, name_at, rename};
use bt_text::Sequence;
use serde_json::Value;
use std::alloc::{AllocError, Global};

fn file_changes(alloc: Global, uri: &[u8], edits: Vec<Value>) -> Result<Value, AllocError>
    ensures { IfOk result (λ v. view v ≡ file_changes uri.now (map view edits.items)) }
{
    let edit = file_edit(alloc, uri, edits)?;
    let files = with_value(Vec::new(alloc), edit)?;
    workspace_edit(alloc, files)
}

impl ShownStyle<'_> {
    fn edit_of(&self, alloc: Global, new: &[u8], mark: Mark) -> Result<Value, AllocError>
        ensures { IfOk result (λ v. view v ≡ edit_of self.now.counting self.now.text.now new.now mark) }
    {
        let range = self.range(alloc, mark.start, mark.end)?;
        let value = text_edit(alloc, range, new)?;
        Ok(value)
    }

    fn edits_of(&self, alloc: Global, new: &[u8], marks: &[Mark]) -> Result<Vec<Value>, AllocError>
        ensures { IfOk result (λ list. map view list.items
            ≡ map (edit_of self.now.counting self.now.text.now new.now) marks.now) }
    {
        let mut list = Vec::new(alloc);
        'marks: for mark in marks {
            list.push(self.edit_of(alloc, new, *mark)?)?;
        }
        Ok(list)
    }

    fn edits_or_refusal(
        &self,
        alloc: Global,
        new: &[u8],
        renamed: Result<Sequence<Mark>, RenameRefusal>,
    ) -> Result<Result<Value, RenameRefusal>, AllocError>
        ensures { IfOk result (λ r. refused_or r
            ≡ edits_or_refusal self.now.counting self.now.uri.now self.now.text.now new.now renamed) }
    {
        match renamed {
            Ok(marks) => {
                let edits = self.edits_of(alloc, new, marks.as_slice())?;
                let value = file_changes(alloc, self.uri, edits)?;
                Ok(Ok(value))
            }
            Err(refusal) => Ok(Err(refusal)),
        }
    }

    /// The edits that give the name at a position a new one, or why it can't have this one.
    pub fn rename_at(
        &self,
        alloc: Global,
        at: Position,
        new: &[u8],
    ) -> Result<Result<Value, RenameRefusal>, AllocError>
        ensures { IfOk result (λ r. refused_or r
            ≡ rename_at self.now.counting self.now.uri.now self.now.text.now at new.now) }
    {
        let text = self.text.as_slice();
        let place = self.text.offset_of(self.counting, at);
        let marks = marks_of(alloc, text)?;
        let renamed = rename(alloc, text, marks.as_slice(), place, new)?;
        let outcome = self.edits_or_refusal(alloc, new, renamed)?;
        Ok(outcome)
    }

    fn range_or_refusal(
        &self,
        alloc: Global,
        mark: Option<Mark>,
        declaration: Option<Mark>,
    ) -> Result<Result<Value, RenameRefusal>, AllocError>
        ensures { IfOk result (λ r. refused_or r ≡ range_or_refusal self.now.counting self.now.text.now mark declaration) }
    {
        match (mark, declaration) {
            (Some(mark), Some(_)) => {
                let range = self.range(alloc, mark.start, mark.end)?;
                Ok(Ok(range))
            }
            (Some(_), None) => Ok(Err(RenameRefusal::NotDeclared)),
            (None, _) => Ok(Ok(Value::Null)),
        }
    }

    /// The range of the name at a position; null if there is none, and refused if the style doesn't declare it.
    pub fn renamed_range_at(
        &self,
        alloc: Global,
        at: Position,
    ) -> Result<Result<Value, RenameRefusal>, AllocError>
        ensures { IfOk result (λ r. refused_or r ≡ renamed_range_at self.now.counting self.now.text.now at) }
    {
        let text = self.text.as_slice();
        let place = self.text.offset_of(self.counting, at);
        let marks = marks_of(alloc, text)?;
        let mark = name_at(marks.as_slice(), place);
        let declaration = definition(text, marks.as_slice(), place);
        let outcome = self.range_or_refusal(alloc, mark, declaration)?;
        Ok(outcome)
    }
}
