//! Names that are declared, and names that are used.

ghost use Rattle.std.specs.Prelude.{◌≡◌, ◌≤◌, None, IfOk, OnOk};
ghost use Rattle.bt_style.specs.Program.{program_of};
ghost use Rattle.bt_style.specs.Fault.{Gives};
ghost use Rattle.bt_style.specs.Token.{count};
ghost use Rattle.bt_style.specs.Names.{target_named, macro_named, is_taken, is_macro};
ghost use Rattle.bt_style.specs.Declares.{new_name, target_of, runnable, names_at, braced_names};

use crate::draft::Draft;
use crate::fault::{FaultKind, StyleRefusal, fault};
use crate::names::Names;
use crate::parser::Parser;
use crate::style::Target;
use crate::token::{Token, TokenKind};
use bt_text::{Bytes, is_name, to_ascii_lowercase};
use std::alloc::Global;

impl Draft {
    /// What a word stands for.
    pub fn target(&self, alloc: Global, word: &[u8], line: usize) -> Result<Target, StyleRefusal>
        ensures { Gives (λ t. t) result (target_of (program_of self.now) word.now line) }
    {
        let name = to_ascii_lowercase(alloc, word)?.into_vec();
        match self.meaning(&name) {
            Some(target) => Ok(target),
            None => Err(fault(FaultKind::UnknownName, line)),
        }
    }

    /// The name that a word declares.
    pub fn new_name(&self, alloc: Global, word: &[u8], line: usize) -> Result<Bytes, StyleRefusal>
        ensures gives { Gives (λ t. t) result (new_name (is_taken (program_of self.now)) word.now line) }
        ensures free { IfOk result (λ name. target_named (program_of self.now) name ≡ None) }
    {
        if !is_name(word) {
            return Err(fault(FaultKind::BadName, line));
        }
        let name = to_ascii_lowercase(alloc, word)?.into_vec();
        if self.meaning(&name).is_some() {
            return Err(fault(FaultKind::NameTaken, line));
        }
        Ok(Bytes::from_vec(name))
    }

    /// The macro's name that a word declares.
    pub fn new_macro(&self, alloc: Global, word: &[u8], line: usize) -> Result<Bytes, StyleRefusal>
        ensures gives { Gives (λ t. t) result (new_name (is_macro (program_of self.now)) word.now line) }
        ensures free { IfOk result (λ name. macro_named (program_of self.now) name ≡ None) }
    {
        if !is_name(word) {
            return Err(fault(FaultKind::BadName, line));
        }
        let name = to_ascii_lowercase(alloc, word)?.into_vec();
        if self.has_macro(&name) {
            return Err(fault(FaultKind::NameTaken, line));
        }
        Ok(Bytes::from_vec(name))
    }
}

impl<'a> Parser<'a> {
    /// Declares the names up to the closing brace.
    #[tactic(auto, unfolding(crate::specs::Declares::names_at))]
    fn names(&mut self, list: Names) -> Result<(), StyleRefusal>
        ensures gives { Gives (λ _. (program_of self.new.draft, self.new.cursor)) result
            (names_at list (program_of self.old.draft) self.old.cursor) }
        ensures shorter { OnOk result (count self.new.cursor ≤ count self.old.cursor) }
    {
        'names: loop {
            let Token { kind, line } = self.cursor.next();
            match kind {
                TokenKind::Close => return Ok(()),
                TokenKind::Word(word) => {
                    let name = self.draft.new_name(self.alloc, word, line)?;
                    self.draft.declare(self.alloc, list, name)?;
                }
                TokenKind::End | TokenKind::Open => {
                    return Err(fault(FaultKind::UnclosedBrace, line));
                }
                _ => return Err(fault(FaultKind::BadName, line)),
            }
        }
    }

    /// Names in braces, each declared.
    pub fn braced_names(&mut self, list: Names) -> Result<(), StyleRefusal>
        ensures gives { Gives (λ _. (program_of self.new.draft, self.new.cursor)) result
            (braced_names list (program_of self.old.draft) self.old.cursor) }
        ensures shorter { OnOk result (count self.new.cursor ≤ count self.old.cursor) }
    {
        self.cursor.open()?;
        self.names(list)
    }
}

/// A function of the style or a built-in one.
pub fn runnable(target: Target, line: usize) -> Result<Target, StyleRefusal>
    ensures { Gives (λ t. t) result (runnable target line) }
{
    match target {
        Target::Function(_) | Target::Builtin(_) => Ok(target),
        _ => Err(fault(FaultKind::NotAFunction, line)),
    }
}
