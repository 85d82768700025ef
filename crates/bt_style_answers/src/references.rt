//! Where the name under the cursor is declared, and where it is used; and where a name is declared that a database uses.

ghost use Rattle.std.specs.Prelude.{◌≡◌, map, IfOk};
ghost use Rattle.serde_json.specs.View.{view};
ghost use Rattle.bt_style_answers.specs.References.{mark_location, maybe_location, definition_at, asked_of, references_at, is_meant, is_declared, declaration_named, lent_declaration, with_mark, with_declaration};

use crate::shown_style::ShownStyle;
use bt_positions::Position;
use bt_shapes::{location, with_value};
use bt_style_text::{Kind, Mark, Role, declares, definition, marks_of, part, references};
use bt_text::eq_ignore_ascii_case;
use serde_json::Value;
use std::alloc::{AllocError, Global};

/// What a database uses of a style.
#[derive(Clone, Copy)]
pub enum Lent {
    /// The function of an entry's type.
    Function,
    Macro,
}

fn is_meant(lent: Lent, role: Role) -> bool
    ensures { result ≡ is_meant lent role }
{
    match (lent, role) {
        (Lent::Function, Role::Declared(Kind::Function)) => true,
        (Lent::Macro, Role::Declared(Kind::Macro)) => true,
        _ => false,
    }
}

fn is_declared(text: &[u8], lent: Lent, name: &[u8], mark: Mark) -> bool
    ensures { result ≡ is_declared text.now lent name.now mark }
{
    is_meant(lent, mark.role) && eq_ignore_ascii_case(part(text, mark.start, mark.end), name)
}

fn declaration_named(text: &[u8], marks: &[Mark], lent: Lent, name: &[u8]) -> Option<Mark>
    ensures { result ≡ declaration_named text.now marks.now lent name.now }
{
    marks
        .iter()
        .copied()
        .find(|mark| is_declared(text, lent, name, *mark))
}

/// Where a style declares what a database uses by this name. A type without a function means `default.type`.
fn lent_declaration(text: &[u8], marks: &[Mark], lent: Lent, name: &[u8]) -> Option<Mark>
    ensures { result ≡ lent_declaration text.now marks.now lent name.now }
{
    match declaration_named(text, marks, lent, name) {
        Some(mark) => Some(mark),
        None => match lent {
            Lent::Function => declaration_named(text, marks, lent, b"default.type"),
            Lent::Macro => None,
        },
    }
}

/// Marks, with the declarations among them or without.
fn asked_of(alloc: Global, marks: &[Mark], with_declarations: bool) -> Result<Vec<Mark>, AllocError>
    ensures { IfOk result (λ found. found.items ≡ asked_of marks.now with_declarations) }
{
    marks
        .iter()
        .copied()
        .filter(|mark| with_declarations || !declares(mark.role))
        .collect(alloc)
}

impl ShownStyle<'_> {
    fn mark_location(&self, alloc: Global, mark: Mark) -> Result<Value, AllocError>
        ensures { IfOk result (λ v. view v
            ≡ mark_location self.now.counting self.now.uri.now self.now.text.now mark) }
    {
        let range = self.range(alloc, mark.start, mark.end)?;
        let found = location(alloc, self.uri, range)?;
        Ok(found)
    }

    fn maybe_location(&self, alloc: Global, mark: Option<Mark>) -> Result<Value, AllocError>
        ensures { IfOk result (λ v. view v
            ≡ maybe_location self.now.counting self.now.uri.now self.now.text.now mark) }
    {
        match mark {
            Some(mark) => self.mark_location(alloc, mark),
            None => Ok(Value::Null),
        }
    }

    /// Where the name at a position is declared; null if the style doesn't declare it.
    pub fn definition_at(&self, alloc: Global, at: Position) -> Result<Value, AllocError>
        ensures { IfOk result (λ v. view v
            ≡ definition_at self.now.counting self.now.uri.now self.now.text.now at) }
    {
        let text = self.text.as_slice();
        let place = self.text.offset_of(self.counting, at);
        let marks = marks_of(alloc, text)?;
        let found = definition(text, marks.as_slice(), place);
        let value = self.maybe_location(alloc, found)?;
        Ok(value)
    }

    fn locations(&self, alloc: Global, marks: &[Mark]) -> Result<Vec<Value>, AllocError>
        ensures { IfOk result (λ list. map view list.items
            ≡ map (mark_location self.now.counting self.now.uri.now self.now.text.now) marks.now) }
    {
        let mut list = Vec::new(alloc);
        'marks: for mark in marks {
            list.push(self.mark_location(alloc, *mark)?)?;
        }
        Ok(list)
    }

    /// All places that have the name at a position, its declarations too if they are asked for.
    pub fn references_at(
        &self,
        alloc: Global,
        at: Position,
        with_declarations: bool,
    ) -> Result<Value, AllocError>
        ensures { IfOk result (λ v. view v
            ≡ references_at self.now.counting self.now.uri.now self.now.text.now at with_declarations) }
    {
        let text = self.text.as_slice();
        let place = self.text.offset_of(self.counting, at);
        let marks = marks_of(alloc, text)?;
        let found = references(alloc, text, marks.as_slice(), place)?;
        let asked = asked_of(alloc, found.as_slice(), with_declarations)?;
        let list = self.locations(alloc, asked.as_slice())?;
        Ok(Value::Array(list))
    }

    fn with_mark(
        &self,
        alloc: Global,
        list: Vec<Value>,
        mark: Option<Mark>,
    ) -> Result<Vec<Value>, AllocError>
        ensures { IfOk result (λ all. map view all.items
            ≡ with_mark self.now.counting self.now.uri.now self.now.text.now (map view list.items) mark) }
    {
        match mark {
            Some(mark) => {
                let place = self.mark_location(alloc, mark)?;
                let all = with_value(list, place)?;
                Ok(all)
            }
            None => Ok(list),
        }
    }

    /// Adds where the style declares what a database uses by this name, if it does: a macro, or the function of an entry's
    /// type, which is `default.type` if the type has none.
    pub fn with_declaration(
        &self,
        alloc: Global,
        list: Vec<Value>,
        lent: Lent,
        name: &[u8],
    ) -> Result<Vec<Value>, AllocError>
        ensures { IfOk result (λ all. map view all.items
            ≡ with_declaration self.now.counting self.now.uri.now self.now.text.now lent name.now (map view list.items)) }
    {
        let text = self.text.as_slice();
        let marks = marks_of(alloc, text)?;
        let found = lent_declaration(text, marks.as_slice(), lent, name);
        let all = self.with_mark(alloc, list, found)?;
        Ok(all)
    }
}
