//! The arguments of commands.

ghost use Rattle.std.specs.Prelude.{◌≤◌, OnOk};
ghost use Rattle.bt_style.specs.Fault.{Gives};
ghost use Rattle.bt_style.specs.Token.{count};
ghost use Rattle.bt_style.specs.Arguments.{open_at, close_at, word_at, literal_at};

use crate::cursor::Cursor;
use crate::fault::{FaultKind, StyleRefusal, fault};
use crate::token::{Token, TokenKind};

impl<'a> Cursor<'a> {
    /// The brace that opens an argument.
    pub fn open(&mut self) -> Result<(), StyleRefusal>
        ensures gives { Gives (λ _. self.new) result (open_at self.old) }
        ensures shorter { OnOk result (count self.new ≤ count self.old) }
    {
        let Token { kind, line } = self.next();
        match kind {
            TokenKind::Open => Ok(()),
            _ => Err(fault(FaultKind::MissingArgument, line)),
        }
    }

    /// The brace that closes an argument.
    pub fn close(&mut self) -> Result<(), StyleRefusal>
        ensures gives { Gives (λ _. self.new) result (close_at self.old) }
        ensures shorter { OnOk result (count self.new ≤ count self.old) }
    {
        let Token { kind, line } = self.next();
        match kind {
            TokenKind::Close => Ok(()),
            _ => Err(fault(FaultKind::UnclosedBrace, line)),
        }
    }

    /// A word's bytes and its line. A literal stands for a word that is no name.
    pub fn word(&mut self) -> Result<(&'a [u8], usize), StyleRefusal>
        ensures gives { Gives (λ r. ((r.0.now, r.1), self.new)) result (word_at self.old) }
        ensures shorter { OnOk result (count self.new ≤ count self.old) }
    {
        let Token { kind, line } = self.next();
        match kind {
            TokenKind::Word(word) => Ok((word, line)),
            TokenKind::Literal(_) | TokenKind::Unclosed | TokenKind::Glued => Ok((b"\"", line)),
            TokenKind::End | TokenKind::Open | TokenKind::Close => {
                Err(fault(FaultKind::MissingArgument, line))
            }
        }
    }

    /// The text of a macro.
    pub fn literal(&mut self) -> Result<&'a [u8], StyleRefusal>
        ensures gives { Gives (λ r. (r.now, self.new)) result (literal_at self.old) }
        ensures shorter { OnOk result (count self.new ≤ count self.old) }
    {
        let Token { kind, line } = self.next();
        match kind {
            TokenKind::Literal(bytes) => Ok(bytes),
            TokenKind::Unclosed => Err(fault(FaultKind::UnclosedText, line)),
            TokenKind::Glued => Err(fault(FaultKind::StrayByte, line)),
            _ => Err(fault(FaultKind::MissingArgument, line)),
        }
    }
}
