//! What can be written at the cursor.

ghost use Rattle.std.specs.Prelude.{◌≡◌, ◌≤◌, ◌++◌, length, map, IfOk};
ghost use Rattle.serde_json.specs.View.{view};
ghost use Rattle.bt_style_text.specs.Completing.{offer_at};
ghost use Rattle.bt_style_text.specs.Words.{words_of};
ghost use Rattle.bt_style_answers.specs.Completion.{written_at, edit_of, item, builtin_item, command_item, item_kind, mark_item, builtin_items, command_items, name_items, offered_items, completion_in, completion_at};

use crate::shown_style::ShownStyle;
use bt_positions::Position;
use bt_shapes::{range, shown, text_edit};
use bt_style::Builtin;
use bt_style_text::{
    Command, Kind, Mark, Offer, Role, all_builtins, all_commands, help_of, marks_of, offer_at,
    offered, part, words_of, written_from,
};
use serde_json::{Value, json};
use std::alloc::{AllocError, Global};

/// The part of a text that a completion replaces: the word that is being written, up to the cursor.
#[derive(Clone, Copy)]
struct Written {
    from: Position,
    to: Position,
}

/// The protocol's number of what a role declares: a field, a function, or a variable.
fn item_kind(role: Role) -> u8
    ensures { result ≡ item_kind role }
{
    match role {
        Role::Declared(Kind::Field) => 5,
        Role::Declared(Kind::Function) => 3,
        _ => 6,
    }
}

impl Written {
    /// The edit that writes a name.
    fn edit_of(&self, alloc: Global, name: &[u8]) -> Result<Value, AllocError>
        ensures { IfOk result (λ v. view v ≡ edit_of self.now name.now) }
    {
        let range = range(alloc, self.from, self.to)?;
        let edit = text_edit(alloc, range, name)?;
        Ok(edit)
    }

    fn item(&self, alloc: Global, label: &[u8], kind: u8) -> Result<Value, AllocError>
        ensures { IfOk result (λ v. view v ≡ item self.now label.now kind) }
    {
        let edit = self.edit_of(alloc, label)?;
        let label = shown(alloc, label)?;
        json!(in alloc; {"label": label, "kind": kind, "textEdit": edit})
    }

    /// A built-in function, with what it does.
    fn builtin_item(&self, alloc: Global, builtin: Builtin) -> Result<Value, AllocError>
        ensures { IfOk result (λ v. view v ≡ builtin_item self.now builtin) }
    {
        let edit = self.edit_of(alloc, builtin.name())?;
        let label = shown(alloc, builtin.name())?;
        let help = shown(alloc, help_of(builtin))?;
        json!(in alloc; {
            "label": label, "kind": 3, "documentation": {"kind": "markdown", "value": help}, "textEdit": edit
        })
    }

    fn builtin_list(&self, alloc: Global, builtins: &[Builtin]) -> Result<Vec<Value>, AllocError>
        ensures { IfOk result (λ list. map view list.items ≡ map (builtin_item self.now) builtins.now) }
    {
        let mut list = Vec::new(alloc);
        'builtins: for builtin in builtins {
            list.push(self.builtin_item(alloc, *builtin)?)?;
        }
        Ok(list)
    }

    fn command_item(&self, alloc: Global, command: Command) -> Result<Value, AllocError>
        ensures { IfOk result (λ v. view v ≡ command_item self.now command) }
    {
        let value = self.item(alloc, command.word(), 14)?;
        Ok(value)
    }

    fn command_list(&self, alloc: Global, commands: &[Command]) -> Result<Vec<Value>, AllocError>
        ensures { IfOk result (λ list. map view list.items ≡ map (command_item self.now) commands.now) }
    {
        let mut list = Vec::new(alloc);
        'commands: for command in commands {
            list.push(self.command_item(alloc, *command)?)?;
        }
        Ok(list)
    }

    fn mark_item(&self, alloc: Global, text: &[u8], mark: Mark) -> Result<Value, AllocError>
        ensures { IfOk result (λ v. view v ≡ mark_item self.now text.now mark) }
    {
        let name = part(text, mark.start, mark.end);
        let value = self.item(alloc, name, item_kind(mark.role))?;
        Ok(value)
    }

    fn add_marks(
        &self,
        alloc: Global,
        text: &[u8],
        marks: &[Mark],
        list: Vec<Value>,
    ) -> Result<Vec<Value>, AllocError>
        ensures { IfOk result (λ all. map view all.items ≡ map view list.items ++ map (mark_item self.now text.now) marks.now) }
    {
        let mut all = list;
        'marks: for mark in marks {
            all.push(self.mark_item(alloc, text, *mark)?)?;
        }
        Ok(all)
    }

    fn builtins(&self, alloc: Global) -> Result<Vec<Value>, AllocError>
        ensures { IfOk result (λ list. map view list.items ≡ builtin_items self.now) }
    {
        self.builtin_list(alloc, all_builtins())
    }

    fn commands(&self, alloc: Global) -> Result<Vec<Value>, AllocError>
        ensures { IfOk result (λ list. map view list.items ≡ command_items self.now) }
    {
        self.command_list(alloc, all_commands())
    }

    /// Built-in functions, and what the style declares before a place.
    fn names(
        &self,
        alloc: Global,
        text: &[u8],
        marks: &[Mark],
        place: usize,
    ) -> Result<Vec<Value>, AllocError>
        ensures { IfOk result (λ list. map view list.items ≡ name_items self.now text.now marks.now place) }
    {
        let list = self.builtins(alloc)?;
        let found = offered(alloc, marks, place)?;
        let all = self.add_marks(alloc, text, found.as_slice(), list)?;
        Ok(all)
    }

    fn offered_items(
        &self,
        alloc: Global,
        text: &[u8],
        marks: &[Mark],
        place: usize,
    ) -> Result<Value, AllocError>
        ensures { IfOk result (λ v. view v ≡
            offered_items self.now text.now marks.now place (offer_at text.now place (words_of text.now))) }
    {
        let words = words_of(alloc, text)?;
        match offer_at(text, words.as_slice(), place) {
            Offer::Nothing => Ok(Value::Null),
            Offer::Commands => {
                let list = self.commands(alloc)?;
                Ok(Value::Array(list))
            }
            Offer::Names => {
                let list = self.names(alloc, text, marks, place)?;
                Ok(Value::Array(list))
            }
        }
    }
}

impl ShownStyle<'_> {
    fn written_at(&self, marks: &[Mark], place: usize) -> Written
        requires { place ≤ length self.now.text.now }
        ensures { result ≡ written_at self.now.counting self.now.text.now marks.now place }
    {
        let from = written_from(marks, place).min(place);
        Written {
            from: self.text.position_of(self.counting, from),
            to: self.text.position_of(self.counting, place),
        }
    }

    /// What can be written at a place of the text, which has these marks.
    fn completion_in(
        &self,
        alloc: Global,
        marks: &[Mark],
        place: usize,
    ) -> Result<Value, AllocError>
        requires { place ≤ length self.now.text.now }
        ensures { IfOk result (λ v. view v ≡ completion_in self.now.counting self.now.text.now marks.now place) }
    {
        let text = self.text.as_slice();
        let written = self.written_at(marks, place);
        let value = written.offered_items(alloc, text, marks, place)?;
        Ok(value)
    }

    /// What can be written at a position: commands outside of braces, names in bodies.
    pub fn completion_at(&self, alloc: Global, at: Position) -> Result<Value, AllocError>
        ensures { IfOk result (λ v. view v ≡ completion_at self.now.counting self.now.text.now at) }
    {
        let place = self.text.offset_of(self.counting, at);
        let marks = marks_of(alloc, self.text.as_slice())?;
        let value = self.completion_in(alloc, marks.as_slice(), place)?;
        Ok(value)
    }
}
