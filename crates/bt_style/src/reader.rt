//! Reads a style: first the names that are there before any command, then its commands.
//!
//! The text is read once, token by token. Its definition, `style_of`, cuts it into tokens first.

ghost use Rattle.std.specs.Prelude.{◌≡◌, ◌<◌, suc, None, IfOk, IfSome, OnOk};
ghost use Rattle.std.specs.Option.{option_map};
ghost use Rattle.bt_style.specs.Fault.{Gives};
ghost use Rattle.bt_style.specs.Token.{count};
ghost use Rattle.bt_style.specs.Program.{program_of};
ghost use Rattle.bt_style.specs.Names.{target_named};
ghost use Rattle.bt_style.specs.Draft.{preset, with_name};
ghost use Rattle.bt_style.specs.inner.Cases.{bare};
ghost use Rattle.bt_style.specs.Reader.{command_word, commands_at, reading, style_of};

use crate::cursor::Cursor;
use crate::draft::Draft;
use crate::fault::{FaultKind, StyleRefusal, fault};
use crate::names::Names;
use crate::parser::Parser;
use crate::style::Style;
use crate::token::{Token, TokenKind};
use crate::verbs::Stage;
use bt_text::Bytes;
use std::alloc::{AllocError, Global};

fn declare_preset(
    alloc: Global,
    draft: &mut Draft,
    names: Names,
    name: &[u8],
) -> Result<(), AllocError>
    requires { target_named (program_of draft.old) name.now ≡ None }
    ensures { OnOk result (program_of draft.new ≡ with_name names name.now (program_of draft.old)) }
{
    let name = Bytes::copied(alloc, name)?;
    draft.declare(alloc, names, name)
}

/// Declares all names that are there before the first command.
fn declare_presets(alloc: Global, draft: &mut Draft) -> Result<(), AllocError>
    requires { program_of draft.old ≡ bare }
    ensures { OnOk result (program_of draft.new ≡ preset) }
{
    declare_preset(alloc, draft, Names::Fields, b"crossref")?;
    declare_preset(alloc, draft, Names::EntryTexts, b"sort.key$")?;
    declare_preset(alloc, draft, Names::GlobalNumbers, b"entry.max$")?;
    declare_preset(alloc, draft, Names::GlobalNumbers, b"global.max$")
}

impl<'a> Cursor<'a> {
    /// The word with which a command begins, or none at the end.
    fn command_word(&mut self) -> Result<Option<(&'a [u8], usize)>, StyleRefusal>
        ensures gives { Gives (option_map (λ r. (r.0.now, r.1, self.new))) result (command_word self.old) }
        ensures shorter { IfOk result (λ found. IfSome found (λ _. count self.new < count self.old)) }
    {
        let Token { kind, line } = self.next();
        match kind {
            TokenKind::End => Ok(None),
            TokenKind::Open | TokenKind::Close => Err(fault(FaultKind::StrayByte, line)),
            TokenKind::Word(word) => Ok(Some((word, line))),
            _ => Err(fault(FaultKind::UnknownCommand, line)),
        }
    }
}

impl<'a> Parser<'a> {
    #[tactic(auto, using(crate::proofs::CommandLemmas::ended, crate::proofs::CommandLemmas::no_word, crate::proofs::CommandLemmas::no_command, crate::proofs::CommandLemmas::one_command))]
    fn commands(&mut self) -> Result<(), StyleRefusal>
        ensures { Gives (λ _. program_of self.new.draft) result
            (commands_at (suc (count self.old.cursor)) Stage.BeforeEntry (program_of self.old.draft) self.old.cursor) }
    {
        let mut stage = Stage::BeforeEntry;
        'commands: loop {
            let Some((word, line)) = self.cursor.command_word()? else {
                return Ok(());
            };
            stage = self.command(stage, word, line)?;
        }
    }

    #[tactic(auto, unfolding(crate::specs::Reader::reading))]
    fn read(&mut self) -> Result<(), StyleRefusal>
        requires { program_of self.old.draft ≡ bare }
        ensures { Gives (λ _. program_of self.new.draft) result (reading self.old.cursor) }
    {
        declare_presets(self.alloc, &mut self.draft)?;
        self.commands()
    }
}

/// The style that a text spells, or its first fault.
#[tactic(auto, unfolding(crate::specs::Reader::style_of))]
pub fn read_style(alloc: Global, text: &[u8]) -> Result<Style, StyleRefusal>
    ensures { Gives program_of result (style_of text.now) }
{
    let draft = Draft::bare(alloc)?;
    let cursor = Cursor::new(text);
    let mut parser = Parser {
        alloc,
        cursor,
        draft,
    };
    parser.read()?;
    Ok(parser.draft.into_style())
}
