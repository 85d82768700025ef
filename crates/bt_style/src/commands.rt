//! Commands with their arguments.
//!
//! A function joins the draft after its body is read, so its body can't name it.

ghost use Rattle.std.specs.Prelude.{◌≡◌, ◌≤◌, None, IfOk, OnOk};
ghost use Rattle.bt_style.specs.Fault.{Gives};
ghost use Rattle.bt_style.specs.Token.{count};
ghost use Rattle.bt_style.specs.Program.{program_of};
ghost use Rattle.bt_style.specs.Names.{target_named, macro_named, is_taken, is_macro};
ghost use Rattle.bt_style.specs.Arguments.{braced_word};
ghost use Rattle.bt_style.specs.Declares.{new_name};
ghost use Rattle.bt_style.specs.Commands.{run_target, variables_at, arguments_at, command_at};

use crate::bodies::body;
use crate::declares::runnable;
use crate::fault::StyleRefusal;
use crate::names::Names;
use crate::parser::Parser;
use crate::style::{Action, Target};
use crate::verbs::{Stage, Verb, in_order, read_verb, stage_after};
use bt_text::Bytes;

impl<'a> Parser<'a> {
    /// A new function's name in braces.
    fn function_name(&mut self) -> Result<Bytes, StyleRefusal>
        ensures gives { Gives (λ t. (t, self.new.cursor)) result
            (braced_word (new_name (is_taken (program_of self.old.draft))) self.old.cursor) }
        ensures free { IfOk result (λ name. target_named (program_of self.old.draft) name ≡ None) }
        ensures draft { self.new.draft ≡ self.old.draft }
        ensures shorter { OnOk result (count self.new.cursor ≤ count self.old.cursor) }
    {
        self.cursor.open()?;
        let (word, line) = self.cursor.word()?;
        let name = self.draft.new_name(self.alloc, word, line)?;
        self.cursor.close()?;
        Ok(name)
    }

    /// A new macro's name in braces.
    fn macro_name(&mut self) -> Result<Bytes, StyleRefusal>
        ensures gives { Gives (λ t. (t, self.new.cursor)) result
            (braced_word (new_name (is_macro (program_of self.old.draft))) self.old.cursor) }
        ensures free { IfOk result (λ name. macro_named (program_of self.old.draft) name ≡ None) }
        ensures draft { self.new.draft ≡ self.old.draft }
        ensures shorter { OnOk result (count self.new.cursor ≤ count self.old.cursor) }
    {
        self.cursor.open()?;
        let (word, line) = self.cursor.word()?;
        let name = self.draft.new_macro(self.alloc, word, line)?;
        self.cursor.close()?;
        Ok(name)
    }

    /// What a word in braces runs.
    fn run_target(&mut self) -> Result<Target, StyleRefusal>
        ensures gives { Gives (λ t. (t, self.new.cursor)) result
            (braced_word (run_target (program_of self.old.draft)) self.old.cursor) }
        ensures draft { self.new.draft ≡ self.old.draft }
        ensures shorter { OnOk result (count self.new.cursor ≤ count self.old.cursor) }
    {
        self.cursor.open()?;
        let (word, line) = self.cursor.word()?;
        let named = self.draft.target(self.alloc, word, line)?;
        let target = runnable(named, line)?;
        self.cursor.close()?;
        Ok(target)
    }

    #[tactic(auto, unfolding(crate::specs::Commands::arguments_at))]
    fn entry(&mut self, line: usize) -> Result<(), StyleRefusal>
        ensures gives { Gives (λ _. (program_of self.new.draft, self.new.cursor)) result
            (arguments_at Verb.Entry line (program_of self.old.draft) self.old.cursor) }
        ensures shorter { OnOk result (count self.new.cursor ≤ count self.old.cursor) }
    {
        self.braced_names(Names::Fields)?;
        self.braced_names(Names::EntryNumbers)?;
        self.braced_names(Names::EntryTexts)?;
        Ok(self.draft.add_command(Action::Entry, line)?)
    }

    #[tactic(auto, unfolding(crate::specs::Commands::arguments_at))]
    fn function(&mut self, line: usize) -> Result<(), StyleRefusal>
        ensures gives { Gives (λ _. (program_of self.new.draft, self.new.cursor)) result
            (arguments_at Verb.Function line (program_of self.old.draft) self.old.cursor) }
        ensures shorter { OnOk result (count self.new.cursor ≤ count self.old.cursor) }
    {
        let name = self.function_name()?;
        self.cursor.open()?;
        let ops = body(self.alloc, &mut self.cursor, &self.draft)?;
        let n = self.draft.function_count();
        self.draft.add_function(self.alloc, name, ops)?;
        Ok(self.draft.add_command(Action::Function(n), line)?)
    }

    #[tactic(auto, unfolding(crate::specs::Commands::arguments_at))]
    fn define_macro(&mut self, line: usize) -> Result<(), StyleRefusal>
        ensures gives { Gives (λ _. (program_of self.new.draft, self.new.cursor)) result
            (arguments_at Verb.Macro line (program_of self.old.draft) self.old.cursor) }
        ensures shorter { OnOk result (count self.new.cursor ≤ count self.old.cursor) }
    {
        let name = self.macro_name()?;
        self.cursor.open()?;
        let bytes = self.cursor.literal()?;
        self.cursor.close()?;
        let text = Bytes::copied(self.alloc, bytes)?;
        let n = self.draft.macro_count();
        self.draft.add_macro(self.alloc, name, text)?;
        Ok(self.draft.add_command(Action::Macro(n), line)?)
    }

    /// `INTEGERS` and `STRINGS`.
    fn variables(&mut self, list: Names, action: Action, line: usize) -> Result<(), StyleRefusal>
        ensures gives { Gives (λ _. (program_of self.new.draft, self.new.cursor)) result
            (variables_at list action line (program_of self.old.draft) self.old.cursor) }
        ensures shorter { OnOk result (count self.new.cursor ≤ count self.old.cursor) }
    {
        self.braced_names(list)?;
        Ok(self.draft.add_command(action, line)?)
    }

    /// A command's arguments, and the command.
    #[tactic(auto, unfolding(crate::specs::Commands::arguments_at))]
    fn arguments(&mut self, verb: Verb, line: usize) -> Result<(), StyleRefusal>
        ensures gives { Gives (λ _. (program_of self.new.draft, self.new.cursor)) result
            (arguments_at verb line (program_of self.old.draft) self.old.cursor) }
        ensures shorter { OnOk result (count self.new.cursor ≤ count self.old.cursor) }
    {
        match verb {
            Verb::Entry => self.entry(line),
            Verb::Execute => {
                let target = self.run_target()?;
                Ok(self.draft.add_command(Action::Execute(target), line)?)
            }
            Verb::Function => self.function(line),
            Verb::Integers => self.variables(Names::GlobalNumbers, Action::Integers, line),
            Verb::Iterate => {
                let target = self.run_target()?;
                Ok(self.draft.add_command(Action::Iterate(target), line)?)
            }
            Verb::Macro => self.define_macro(line),
            Verb::Read => Ok(self.draft.add_command(Action::Read, line)?),
            Verb::Reverse => {
                let target = self.run_target()?;
                Ok(self.draft.add_command(Action::Reverse(target), line)?)
            }
            Verb::Sort => Ok(self.draft.add_command(Action::Sort, line)?),
            Verb::Strings => self.variables(Names::GlobalTexts, Action::Strings, line),
        }
    }

    /// A command after its word.
    #[tactic(auto, unfolding(crate::specs::Commands::command_at))]
    pub fn command(&mut self, stage: Stage, word: &[u8], line: usize) -> Result<Stage, StyleRefusal>
        ensures gives { Gives (λ s. (s, program_of self.new.draft, self.new.cursor)) result
            (command_at stage (program_of self.old.draft) word.now line self.old.cursor) }
        ensures shorter { OnOk result (count self.new.cursor ≤ count self.old.cursor) }
    {
        let verb = read_verb(word, line)?;
        in_order(verb, stage, line)?;
        self.arguments(verb, line)?;
        Ok(stage_after(verb, stage))
    }
}
