//! The functions and macros of a style, to be folded.

ghost use Rattle.std.specs.Prelude.{◌≡◌, ◌++◌, [], map, option_map, IfOk};
ghost use Rattle.std.specs.List.{cons_option};
ghost use Rattle.serde_json.specs.View.{view};
ghost use Rattle.bt_style_answers.specs.Folding.{fold_of, folds_of, folds_in};

use crate::shown_style::ShownStyle;
use bt_shapes::fold_between;
use bt_style_text::{Symbol, marks_of, symbols_of};
use serde_json::Value;
use std::alloc::{AllocError, Global};

impl ShownStyle<'_> {
    /// The lines of a symbol, if there are several.
    fn fold_of(&self, alloc: Global, symbol: Symbol) -> Result<Option<Value>, AllocError>
        ensures { IfOk result (λ found. option_map view found ≡ fold_of self.now.counting self.now.text.now symbol) }
    {
        let end = self.text.as_slice().len();
        let from = self.text.position_of(self.counting, symbol.start.min(end));
        let to = self.text.position_of(self.counting, symbol.end.min(end));
        fold_between(alloc, from.line, to.line)
    }

    fn with_fold(
        &self,
        alloc: Global,
        symbol: Symbol,
        list: Vec<Value>,
    ) -> Result<Vec<Value>, AllocError>
        ensures { IfOk result (λ all. map view all.items ≡
            map view list.items ++ cons_option (fold_of self.now.counting self.now.text.now symbol) []) }
    {
        let mut all = list;
        if let Some(found) = self.fold_of(alloc, symbol)? {
            all.push(found)?;
        }
        Ok(all)
    }

    fn folds_of(&self, alloc: Global, symbols: &[Symbol]) -> Result<Vec<Value>, AllocError>
        ensures { IfOk result (λ list. map view list.items
            ≡ folds_of self.now.counting self.now.text.now symbols.now) }
    {
        let mut list = Vec::new(alloc);
        'symbols: for symbol in symbols {
            list = self.with_fold(alloc, *symbol, list)?;
        }
        Ok(list)
    }

    /// The lines of each function and macro that has several.
    pub fn folds(&self, alloc: Global) -> Result<Value, AllocError>
        ensures { IfOk result (λ v. view v ≡ folds_in self.now.counting self.now.text.now) }
    {
        let marks = marks_of(alloc, self.text.as_slice())?;
        let symbols = symbols_of(alloc, marks.as_slice())?;
        let list = self.folds_of(alloc, symbols.as_slice())?;
        Ok(Value::Array(list))
    }
}
