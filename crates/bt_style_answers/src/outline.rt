//! What a style declares, as an editor's outline.

ghost use Rattle.std.specs.Prelude.{◌≡◌, map, IfOk};
ghost use Rattle.serde_json.specs.View.{view};
ghost use Rattle.bt_style_answers.specs.Outline.{symbol_kind, symbol_of, symbols_in};

use crate::shown_style::ShownStyle;
use bt_shapes::symbol;
use bt_style_text::{Kind, Symbol, marks_of, part, symbols_of};
use serde_json::Value;
use std::alloc::{AllocError, Global};

/// The protocol's number of a kind of symbols: a field, a variable, a function or a constant.
fn symbol_kind(kind: Kind) -> u8
    ensures { result ≡ symbol_kind kind }
{
    match kind {
        Kind::Field => 8,
        Kind::EntryInteger | Kind::EntryString | Kind::GlobalInteger | Kind::GlobalString => 13,
        Kind::Function => 12,
        Kind::Macro => 14,
    }
}

impl ShownStyle<'_> {
    fn symbol_of(&self, alloc: Global, found: Symbol) -> Result<Value, AllocError>
        ensures { IfOk result (λ v. view v ≡ symbol_of self.now.counting self.now.text.now found) }
    {
        let whole = self.range(alloc, found.start, found.end)?;
        let head = self.range(alloc, found.name.start, found.name.end)?;
        let name = part(self.text.as_slice(), found.name.start, found.name.end);
        let value = symbol(alloc, name, symbol_kind(found.kind), whole, head)?;
        Ok(value)
    }

    fn symbol_list(&self, alloc: Global, symbols: &[Symbol]) -> Result<Vec<Value>, AllocError>
        ensures { IfOk result (λ list. map view list.items
            ≡ map (symbol_of self.now.counting self.now.text.now) symbols.now) }
    {
        let mut list = Vec::new(alloc);
        'symbols: for symbol in symbols {
            list.push(self.symbol_of(alloc, *symbol)?)?;
        }
        Ok(list)
    }

    /// What the text declares: functions and macros with the whole of their commands.
    pub fn symbols(&self, alloc: Global) -> Result<Value, AllocError>
        ensures { IfOk result (λ v. view v ≡ symbols_in self.now.counting self.now.text.now) }
    {
        let marks = marks_of(alloc, self.text.as_slice())?;
        let symbols = symbols_of(alloc, marks.as_slice())?;
        let list = self.symbol_list(alloc, symbols.as_slice())?;
        Ok(Value::Array(list))
    }
}
